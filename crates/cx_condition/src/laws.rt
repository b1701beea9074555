//! Laws of conditions.
ghost use Rattle.std.specs.Prelude.{◌≡◌, ℕ, suc, ◌<◌, ◌^◌, Bool as boolean, true, false, ◌||◌, pos, negsuc, ◌≤ℤ◌, List as list, [], ◌∷◌, Some, nat_lt};
ghost use Rattle.cx_tokens.specs.declared.token.Token.{Token as token};
ghost use Rattle.cx_tokens.specs.declared.token.Kind.TheVariants as kind_is;
ghost use Rattle.cx_condition.specs.declared.integer.IntegerConstant.{IntegerConstant as integer};
ghost use Rattle.cx_condition.specs.declared.operator.Operator.TheVariants as operator_is;
ghost use Rattle.cx_condition.specs.Conditions.{Reads, Tree, conditional, evaluated, joined, value};
ghost use Rattle.cx_condition.specs.Constants.{integer_constant};
ghost use Rattle.cx_condition.specs.Values.{bits_of, number_of};

/// At most one tree reads a list of tokens.
pub fn one_reading()
    ensures { (tokens : list token) (some other : Tree) → Reads tokens some → Reads tokens other
        → some ≡ other }
{}

/// A side that is not evaluated does not matter for the value (C11 6.5.13 to 6.5.15).
pub fn skipped_sides_are_left_out()
    ensures and { (a some other : Tree) → (evaluated a).bits ≡ Some 0
        → value (joined operator_is.LogicalAnd a some) ≡ value
        (joined operator_is.LogicalAnd a other) }
    ensures or { (a some other : Tree) (n : ℕ) → (evaluated a).bits ≡ Some (suc n)
        → value (joined operator_is.LogicalOr a some) ≡ value
        (joined operator_is.LogicalOr a other) }
    ensures second { (c a some other : Tree) (n : ℕ) → (evaluated c).bits ≡ Some (suc n)
        → (evaluated some).is_unsigned ≡ (evaluated other).is_unsigned
        → value (conditional c a some) ≡ value (conditional c a other) }
    ensures first { (c some other b : Tree) → (evaluated c).bits ≡ Some 0
        → (evaluated some).is_unsigned ≡ (evaluated other).is_unsigned
        → value (conditional c some b) ≡ value (conditional c other b) }
{}

/// A choice has the common type of both sides, whichever is evaluated (C11 6.5.15, paragraph 5).
pub fn choices_have_the_common_type()
    ensures { (c a b : Tree) → (evaluated (conditional c a b)).is_unsigned
        ≡ ((evaluated a).is_unsigned || (evaluated b).is_unsigned) }
{}

/// A number alone is its constant.
pub fn a_number_is_its_constant()
    ensures { (t : token) (c : integer) → t.kind ≡ kind_is.Number → integer_constant t.text ≡ Some c
        → (tree : Tree) × Reads (t ∷ []) tree × (value tree
        ≡ Some (record {
          is_unsigned = c.is_unsigned || nat_lt 9223372036854775807 c.value;
          bits
              = c.value;
        })) }
{}

/// 64 bits stand for a number in the range of their type, and no others for the same.
pub fn bits_are_of_their_range()
    ensures unsigned { (n : ℕ) → n < 2 ^ 64
        → (pos 0 ≤ℤ number_of true n) × (number_of true n ≤ℤ pos 18446744073709551615) }
    ensures signed { (n : ℕ) → n < 2 ^ 64
        → (negsuc 9223372036854775807 ≤ℤ number_of false n) ×
        (number_of false n ≤ℤ pos 9223372036854775807) }
    ensures once { (u : boolean) (n : ℕ) → n < 2 ^ 64 → bits_of (number_of u n) ≡ n }
{}
