//! Laws of items, each by the contract of a function that does nothing.
ghost use Rattle.std.specs.Prelude.{◌≡◌, ◌++◌, ℕ, Bool, List as Items};
ghost use Rattle.cx_syntax_tree.specs.declared.terminals.Lexeme.{Lexeme};
ghost use Rattle.cx_terminals.specs.Terminals.{lexemes};
ghost use Rattle.cx_tokens.specs.Brackets.{IsNested};
ghost use Rattle.cx_tokens.specs.declared.token.Token.{Token};
ghost use Rattle.cx_items.specs.Brackets.{IsParts, Part, tokens_of};
ghost use Rattle.cx_items.specs.Cutting.{AreStarts, IsItem};

/// The parts of tokens have these tokens, in order.
#[tactic(auto, using(crate::proofs::OutlineLaws::all_tokens))]
pub fn no_token_is_lost()
    ensures { (ts : Items Lexeme) (parts : Items Part) → IsParts ts parts → tokens_of parts ≡ ts }
{}

/// Tokens have one list of parts.
#[tactic(auto, using(crate::proofs::PartLaws::same_parts))]
pub fn one_list_of_parts()
    ensures { (ts : Items Lexeme) (parts others : Items Part) → IsParts ts parts
        → IsParts ts others → parts ≡ others }
{}

/// Tokens whose brackets are nested have parts.
#[tactic(auto, using(crate::proofs::NestedLaws::have_parts))]
pub fn nested_have_parts()
    ensures { (ts : Items Token) → IsNested ts
        → (parts : Items Part) × IsParts (lexemes ts) parts }
{}

/// An item and what stands behind it are all parts, in order.
pub fn no_part_is_lost()
    ensures { (parts front rest : Items Part) → IsItem parts front rest → parts ≡ front ++ rest }
{}

/// Tokens are cut in one way.
pub fn one_cut()
    ensures { (n : ℕ) (parts : Items Part) (starts others : Items ℕ) (finished ended : Bool)
        → AreStarts n parts starts finished → AreStarts n parts others ended
        → (starts ≡ others) × (finished ≡ ended) }
{}
