//! Laws of libraries.
ghost use Rattle.std.specs.Prelude.{◌≡◌, ◌↔◌, ℕ, ℤ, ◌≤ℤ◌, List as list, [], ◌∷◌, true, false};
ghost use Rattle.std.specs.Prelude.{IfSome, IsSomeAnd, IsTrue, None, Some, codes};
ghost use Rattle.cx_table.specs.NameTable.{value_of};
ghost use Rattle.cx_library.specs.Arguments.{rule_of, valid};
ghost use Rattle.cx_library.specs.BuiltIn.{built_in};
ghost use Rattle.cx_library.specs.Known.{IsGroupedBelow, IsGroupedFrom, SaysSame, GroupedSame};
ghost use Rattle.cx_library.specs.Known.{is_grouped, renumbered};
ghost use Rattle.cx_library.specs.Library.{Contents, IsLibrary, empty, function_of, is_grouped_in};
ghost use Rattle.cx_library.specs.Library.{merged, pod_of};
ghost use Rattle.cx_library.specs.declared.described.ArgRule.{ArgRule as arg_rule};
ghost use Rattle.cx_library.specs.declared.described.Described.{Described as described_type};
ghost use Rattle.cx_library.specs.declared.known.Known.{Known as known_type};
ghost use Rattle.cx_library.specs.declared.pod.Pod.{Pod as pod_type};

/// What a later library says counts: a `function` element, a memory group, a macro, a podtype.
pub fn the_later_wins()
    ensures described { (earlier later : Contents) (name : list ℕ) (known : known_type)
        → value_of later.functions name ≡ Some known → known.stated ≡ true
        → IsSomeAnd (function_of (merged earlier later) name) (SaysSame known.described) }
    ensures grouped { (earlier later : Contents) (name : list ℕ) (known : known_type)
        → value_of later.functions name ≡ Some known → is_grouped known.described ≡ true
        → IsSomeAnd (function_of (merged earlier later) name)
        (GroupedSame (renumbered earlier.groups known).described) }
    ensures defined { (earlier later : Contents) (name text : list ℕ)
        → value_of later.defines name ≡ Some text
        → value_of (merged earlier later).defines name ≡ Some text }
    ensures typed { (earlier later : Contents) (name : list ℕ) (pod : pod_type)
        → pod_of later name ≡ Some pod → pod_of (merged earlier later) name ≡ Some pod }
{}

/// A memory group leaves what is said of a function, and a `function` element leaves its group.
pub fn the_other_part_stays()
    ensures described { (earlier later : Contents) (name : list ℕ) (d : described_type)
        (known : known_type) → function_of earlier name ≡ Some d
        → value_of later.functions name ≡ Some known → known.stated ≡ false
        → IsSomeAnd (function_of (merged earlier later) name) (SaysSame d) }
    ensures grouped { (earlier later : Contents) (name : list ℕ) (d : described_type)
        (known : known_type) → function_of earlier name ≡ Some d
        → value_of later.functions name ≡ Some known → is_grouped known.described ≡ false
        → IsSomeAnd (function_of (merged earlier later) name) (GroupedSame d) }
{}

/// What the later library does not name is as it was.
pub fn what_is_not_named_stays()
    ensures functions { (earlier later : Contents) (name : list ℕ)
        → value_of later.functions name ≡ None
        → function_of (merged earlier later) name ≡ function_of earlier name }
    ensures defines { (earlier later : Contents) (name : list ℕ)
        → value_of later.defines name ≡ None
        → value_of (merged earlier later).defines name ≡ value_of earlier.defines name }
    ensures pods { (earlier later : Contents) (name : list ℕ) → pod_of later name ≡ None
        → pod_of (merged earlier later) name ≡ pod_of earlier name }
{}

/// A library that knows nothing adds nothing, and to nothing a library adds itself.
pub fn nothing_changes_nothing()
    ensures behind { (library : Contents) → merged library empty ≡ library }
    ensures before { (library : Contents) → merged empty library ≡ library }
{}

/// Of three libraries it is one which two are merged first.
pub fn merging_is_associative()
    ensures { (first second third : Contents)
        → merged (merged first second) third ≡ merged first (merged second third) }
{}

/// No memory group of one library is one of another: those of the earlier library have numbers
/// below its count of groups, and those of the later have others.
pub fn groups_are_apart()
    ensures earlier { (earlier later : Contents) (name : list ℕ) → IsLibrary earlier
        → is_grouped_in later name ≡ false
        → IfSome (function_of (merged earlier later) name) (IsGroupedBelow earlier.groups) }
    ensures later { (earlier later : Contents) (name : list ℕ)
        → is_grouped_in later name ≡ true
        → IfSome (function_of (merged earlier later) name) (IsGroupedFrom earlier.groups) }
{}

/// In the built-in library `exit` never returns, and `free` frees what `malloc` allocates.
pub fn what_is_built_in()
    ensures exit { IsSomeAnd (function_of built_in (codes "exit")) (λ d. IsTrue d.noreturn) }
    ensures malloc { IsSomeAnd (function_of built_in (codes "malloc"))
        (λ d. d.allocates ≡ Some 0) }
    ensures free { IsSomeAnd (function_of built_in (codes "free")) (λ d. d.frees ≡ Some 0) }
{}

/// A range with two ends allows exactly what is between them, both of them too.
pub fn both_ends_are_valid()
    ensures { (d : described_type) (number : ℕ) (rule : arg_rule) (least greatest value : ℤ)
        → rule_of d.args number ≡ Some rule
        → rule.ranges ≡ record { least = Some least; greatest = Some greatest } ∷ []
        → IsTrue (valid d number value) ↔ ((least ≤ℤ value) × (value ≤ℤ greatest)) }
{}
