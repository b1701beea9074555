//! Laws of first texts and their runs, each by the contract of a function that does nothing.
ghost use Rattle.std.specs.Prelude.{◌≡◌, ℕ, List};
ghost use Rattle.cx_tokens.specs.declared.token.Token.{Token};
ghost use Rattle.cx_first.specs.declared.evaluation.Undefined.{Undefined};
ghost use Rattle.cx_first.specs.Tree.{Source};
ghost use Rattle.cx_first.specs.Grammar.{IsFirstText};
ghost use Rattle.cx_first.specs.Runs as meaning;

/// At most one tree reads the tokens of a text.
pub fn one_tree()
    ensures { (tokens : List Token) (source other : Source) → IsFirstText tokens source
        → IsFirstText tokens other → source ≡ other }
{}

/// Each text has exactly one longest run, and each run is a front of it.
pub fn one_longest_run()
    ensures { (text : Source) → meaning.OneLongest text }
{}

/// Each pair of a run whose statement evaluates has a next one.
pub fn runs_go_on()
    ensures { (text : Source) → meaning.GoesOn text }
{}

/// No run passes the node at which its text is stuck, and a run comes to its statement.
pub fn stuck_is_never_passed()
    ensures { (text : Source) (statement node : ℕ) (cause : Undefined)
        → meaning.IsStuck text statement node cause → meaning.IsNeverPassed text statement node }
{}
