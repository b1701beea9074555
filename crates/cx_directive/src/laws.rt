//! Laws of directives, each by the contract of a function that does nothing.
ghost use Rattle.std.specs.Prelude.{◌≡◌, ◌∷◌, ◌↔◌, ℕ, All, List, Some, bytes_eq, false, true};
ghost use Rattle.std.specs.List.{IsDistinct};
ghost use Rattle.cx_tokens.specs.declared.token.Token.{Token};
ghost use Rattle.cx_tokens.specs.Simplified.{is_name};
ghost use Rattle.cx_macro.specs.Macros.{Definition, IsDefinition, Table};
ghost use Rattle.cx_directive.specs.Answers.{answer, answered, is_bracketed_name, is_defined, is_question};
ghost use Rattle.cx_directive.specs.Defines.{are_distinct, defined_by};

/// A condition without the name `defined` is its own answer.
pub fn nothing_is_asked()
    ensures { (table : Table) (ts : List Token) → All (λ t. is_question t ≡ false) ts
        → answered table ts ≡ ts }
{}

/// Each `defined` with a name after it is answered, bare or in brackets, whatever stands behind.
pub fn each_question_is_answered()
    ensures bare { (table : Table) (t a : Token) (rest : List Token)
        → is_question t ≡ true → is_name a.kind ≡ true
        → answered table (t ∷ a ∷ rest)
        ≡ answer (is_defined table a.text) t ∷ answered table rest }
    ensures bracketed { (table : Table) (t a b c : Token) (rest : List Token)
        → is_question t ≡ true → is_bracketed_name a b c ≡ true
        → answered table (t ∷ a ∷ b ∷ c ∷ rest)
        ≡ answer (is_defined table b.text) t ∷ answered table rest }
{}

/// What a `define` defines can be a macro (C11 6.10.3).
pub fn what_is_defined_is_a_definition()
    ensures { (ts : List Token) (name : List ℕ) (d : Definition) → defined_by ts ≡ Some (name, d)
        → IsDefinition d }
{}

/// The test of names tells whether no two of them are one (C11 6.10.3, paragraph 6).
pub fn distinct_names_are_told()
    ensures { (names : List (List ℕ)) → (are_distinct names ≡ true) ↔ IsDistinct bytes_eq names }
{}
