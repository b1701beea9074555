//! Laws of expressions. None of these functions does anything.
ghost use Rattle.std.specs.Prelude.{◌≡◌, ℕ, ◌≤◌, List};
ghost use Rattle.cx_syntax_tree.specs.declared.expressions.TreeAssign.{TreeAssign as Assignments};
ghost use Rattle.cx_syntax_tree.specs.declared.expressions.TreeCond.{TreeCond as Conditionals};
ghost use Rattle.cx_syntax_tree.specs.declared.expressions.TreeExpr.{TreeExpr as Expressions};
ghost use Rattle.cx_syntax_tree.specs.declared.expressions.TreeType.{TreeType as Types};
ghost use Rattle.cx_syntax_tree.specs.declared.terminals.Lexeme.{Lexeme as Token};
ghost use Rattle.cx_reading.specs.Types.{IsType};
ghost use Rattle.cx_expressions.specs.Expressions as meaning;
ghost use Rattle.cx_expressions.specs.Limits as limits;
ghost use Rattle.cx_expressions.specs.Order.{ExprInOrder, AssignInOrder, CondInOrder};

/// At most one tree reads, where none goes on behind it.
pub fn one_tree()
    ensures expression { (ts : List Token) (one other : Expressions) (rest more : List Token)
        → meaning.Expr ts one rest → meaning.Expr ts other more → limits.EndsExpr rest
        → limits.EndsExpr more → (one ≡ other) × (rest ≡ more) }
    ensures assignment { (ts : List Token) (one other : Assignments) (rest more : List Token)
        → meaning.Assign ts one rest → meaning.Assign ts other more → limits.EndsAssign rest
        → limits.EndsAssign more → (one ≡ other) × (rest ≡ more) }
    ensures conditional { (ts : List Token) (one other : Conditionals) (rest more : List Token)
        → meaning.Cond ts one rest → meaning.Cond ts other more → limits.EndsCond rest
        → limits.EndsCond more → (one ≡ other) × (rest ≡ more) }
{}

/// Where a type begins, no expression does. So a cast is no expression in brackets (C11 6.5.4).
pub fn no_type_first()
    ensures { (ts rest more : List Token) (x : Expressions) (t : Types) → meaning.Expr ts x rest
        → ¬ IsType ts t more }
{}

/// What reads with operands that nest so deep reads with operands that nest deeper, and each
/// expression reads at some depth.
pub fn deeper()
    ensures more { (low high : ℕ) (ts rest : List Token) (x : Expressions) → low ≤ high
        → limits.ExprWithin low ts x rest → limits.ExprWithin high ts x rest }
    ensures some_depth { (ts rest : List Token) (x : Expressions) → meaning.Expr ts x rest
        → (depth : ℕ) × limits.ExprWithin depth ts x rest }
{}

/// The tokens that are read are those of the tree, in order.
pub fn tokens_in_order()
    ensures expression { ExprInOrder }
    ensures assignment { AssignInOrder }
    ensures conditional { CondInOrder }
{}
