//! Laws of macro replacement, each by the contract of a function that does nothing.
ghost use Rattle.std.specs.Prelude.{◌≡◌, ◌+◌, ◌<◌, ◌≤◌, ℕ, Bool, true, List, None, length, All};
ghost use Rattle.cx_base.specs.declared.place.Place.{Place};
ghost use Rattle.cx_tokens.specs.declared.token.Token.{Token};
ghost use Rattle.cx_macro.specs.declared.fault.MacroFault.TheVariants as fault;
ghost use Rattle.cx_macro.specs.Arguments.{AreArguments, AreJoined, Arguments, Bracketed, IsBracketed, IsRoundNested};
ghost use Rattle.cx_macro.specs.Expansion.{ExpandsList, Outcome, Replaces, definition_at, expanded, refused, replacement};
ghost use Rattle.cx_macro.specs.Hiding.{is_among};
ghost use Rattle.cx_macro.specs.Macros.{Table};

/// A list has at most one outcome.
pub fn one_outcome()
    ensures { (table : Table) (bound laid : ℕ) (list : List Token) (outcome other : Outcome)
        → ExpandsList table bound laid list outcome → ExpandsList table bound laid list other
        → outcome ≡ other }
{}

/// Every list has an outcome, where no more than the bound have been laid before.
pub fn some_outcome()
    ensures { (table : Table) (bound laid : ℕ) (list : List Token) → laid ≤ bound
        → (outcome : Outcome) × ExpandsList table bound laid list outcome }
{}

/// A list of which no token is replaced is its own expansion.
pub fn nothing_is_replaced()
    ensures { (table : Table) (bound laid : ℕ) (list : List Token)
        → All (λ t. definition_at table t ≡ None) list → laid + length list ≤ bound
        → ExpandsList table bound laid list (expanded list (laid + length list)) }
{}

/// No list that is expanded lays more tokens than the bound, and one that lays too many passes it.
pub fn the_bound_is_met()
    ensures expanded { (table : Table) (bound laid : ℕ) (list made : List Token) (after : ℕ)
        → ExpandsList table bound laid list (expanded made after) → after ≤ bound }
    ensures refused { (table : Table) (bound laid : ℕ) (list : List Token) (at : Place) (after : ℕ)
        → ExpandsList table bound laid list (refused (fault.TooManyTokens at after))
        → bound < after }
{}

/// After an opening bracket stands at most one closing one that matches it.
pub fn one_closing_bracket()
    ensures { (ts : List Token) (b c : Bracketed) → IsBracketed ts b → IsBracketed ts c → b ≡ c }
{}

/// What stands between brackets is a list of arguments with commas between, and a number of
/// parameters is given at most one list of them.
pub fn arguments_are_found()
    ensures some { (ts : List Token) → IsRoundNested ts → (given : List (List Token))
        × AreJoined given ts × (0 < length given) }
    ensures one { (n : ℕ) (variadic : Bool) (ts : List Token) (a b : Arguments)
        → AreArguments n variadic ts a → AreArguments n variadic ts b → a ≡ b }
{}

/// Each token that replaces a macro's name hides that name, so the name stays where it stands among
/// them (C11 6.10.3.4, paragraph 2).
pub fn a_name_hides_itself()
    ensures hidden { (table : Table) (bound laid after : ℕ) (name : Token)
        (rest ts ahead : List Token)
        → Replaces table bound laid name rest (replacement ts ahead after)
        → All (λ t. is_among t.hide name.text ≡ true) ts }
    ensures stays { (table : Table) (bound laid after : ℕ) (name : Token)
        (rest ts ahead : List Token)
        → Replaces table bound laid name rest (replacement ts ahead after)
        → All (λ t. t.text ≡ name.text → definition_at table t ≡ None) ts }
{}
