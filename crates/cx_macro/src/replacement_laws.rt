//! Laws of what a macro is replaced by, each by the contract of a function that does nothing.
ghost use Rattle.std.specs.Prelude.{◌≡◌, ◌++◌, ℕ, List, All, codes};
ghost use Rattle.cx_tokens.specs.declared.token.Token.{Token};
ghost use Rattle.cx_macro.specs.Arguments.{Arguments};
ghost use Rattle.cx_macro.specs.Macros.{Definition};
ghost use Rattle.cx_macro.specs.Replacement.{HasNoGnuComma, standard_substitutes_of, string_of, substitutes_of};
ghost use Rattle.cx_macro.specs.Strings.{HasNoStrayBackslash, spellings_of, unescaped};

/// A replacement list in which GNU's comma stands nowhere is replaced by the rules of C11 alone.
pub fn standard_rules_alone()
    ensures { (d : Definition) (arguments : Arguments) (expanded : List (List Token))
        → HasNoGnuComma d
        → substitutes_of d arguments expanded ≡ standard_substitutes_of d arguments expanded }
{}

/// The string that `#` makes is the spelling of its argument, in quotes and with `\` added (C11
/// 6.10.3.2).
pub fn string_says_its_argument()
    ensures { (hash : Token) (argument : List Token) → All HasNoStrayBackslash argument
        → (inner : List ℕ) × ((string_of hash argument).text ≡ codes "\"" ++ (inner ++ codes "\""))
        × (unescaped inner ≡ spellings_of argument) }
{}
