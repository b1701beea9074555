//! Laws of configurations.
ghost use Rattle.std.specs.Prelude.{◌≡◌, ◌≤◌, ◌+◌, ◌++◌, ℕ, List as list, All};
ghost use Rattle.std.specs.Prelude.{Option as option, Some, bytes_eq, false, length};
ghost use Rattle.std.specs.List.{IsDistinct};
ghost use Rattle.std.specs.List.Sorted.{IsStrictlySortedBy};
ghost use Rattle.std.specs.Ordering.{nat_cmp};
ghost use Rattle.std.specs.Cmp.Lexicographic.{pointwise, slice_cmp};
ghost use Rattle.cx_lines.specs.Nesting.{Line as line};
ghost use Rattle.cx_lines.specs.Whole.{AreWhole};
ghost use Rattle.cx_configs.specs.Configurations.{is_among, name_lists};
ghost use Rattle.cx_configs.specs.Questions.{Group as group, Name as name, asked_lists};

/// No two configurations of a unit have the same names.
pub fn no_list_stands_twice()
    ensures { (bound : option ℕ) (settled : list name) (files : list (list line))
        → IsDistinct (pointwise bytes_eq) (name_lists bound settled files) }
{}

/// The names of a configuration ascend by their bytes.
pub fn names_ascend()
    ensures { (bound : option ℕ) (settled : list name) (files : list (list line))
        → All (IsStrictlySortedBy (slice_cmp nat_cmp)) (name_lists bound settled files) }
{}

/// No configuration has a name that is settled.
pub fn settled_names_are_in_no_list()
    ensures { (bound : option ℕ) (settled : list name) (files : list (list line))
        → All (All (λ n. is_among settled n ≡ false)) (name_lists bound settled files) }
{}

/// There are at most as many configurations as are looked at, which are one or more.
pub fn as_many_as_are_looked_at()
    ensures { (most : ℕ) (settled : list name) (files : list (list line))
        → length (name_lists (Some (most + 1)) settled files) ≤ most + 1 }
{}

/// What stands in a whole section asks for the same names whatever stands behind it, and what
/// stands behind it asks for none of them.
pub fn whole_sections_ask_alone()
    ensures { (groups : list group) (lines rest : list line) → AreWhole lines
        → asked_lists groups (lines ++ rest) ≡ asked_lists groups lines ++ asked_lists groups rest }
{}
