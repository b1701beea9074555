//! Laws of the definitions that the contracts of this crate cite. None of these functions does
//! anything.
ghost use Rattle.std.specs.Prelude.{◌≡◌, List};
ghost use Rattle.cx_syntax_tree.specs.declared.expressions.TreeType.{TreeType as Types};
ghost use Rattle.cx_syntax_tree.specs.declared.terminals.Lexeme.{Lexeme as Token};
ghost use Rattle.cx_syntax_tree.specs.Written.{type_written};
ghost use Rattle.cx_reading.specs.Agreement.{Law, InOrder};
ghost use Rattle.cx_reading.specs.Shapes.TypeParsers as parsers;
ghost use Rattle.cx_reading.specs.TypeFronts.{BeginsType, EndsType};
ghost use Rattle.cx_reading.specs.Types.{IsType};

/// At most one type reads, where none goes on behind it.
pub fn one_type()
    ensures { (ts : List Token) (one other : Types) (rest more : List Token) → IsType ts one rest
        → IsType ts other more → EndsType rest → EndsType more → (one ≡ other) × (rest ≡ more) }
{}

/// The computed reader of types reads what the rule does.
pub fn types_agree()
    ensures { Law BeginsType EndsType parsers.type_name IsType }
{}

/// The tokens of a type that is read are those of its tree, in order.
pub fn type_tokens_in_order()
    ensures { InOrder type_written IsType }
{}
