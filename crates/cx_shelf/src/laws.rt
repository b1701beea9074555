//! Laws of the files of a unit, each by the contract of a function that does nothing.
ghost use Rattle.std.specs.Prelude.{◌≡◌, ◌⊎◌, ℕ, Contains, List, Some, ◌∷◌, ◌++◌, flat_map, nat_eq, slice_get};
ghost use Rattle.std.specs.List.{IsDistinct};
ghost use Rattle.cx_shelf.specs.declared.shelf.Shelf.{Shelf};
ghost use Rattle.cx_shelf.specs.Closures.{closure_of, included};

/// The first file of a unit is its own.
pub fn closure_begins_with_its_unit()
    ensures { (shelf : Shelf) (unit : ℕ) → slice_get (closure_of shelf unit) 0 ≡ Some unit }
{}

/// No file stands twice among those of a unit.
pub fn each_file_stands_once()
    ensures { (shelf : Shelf) (unit : ℕ) → IsDistinct nat_eq (closure_of shelf unit) }
{}

/// What a file of a unit includes is a file of the unit.
pub fn closure_is_closed()
    ensures { (shelf : Shelf) (unit file other : ℕ) → Contains (closure_of shelf unit) file
        → Contains (included shelf file) other → Contains (closure_of shelf unit) other }
{}

/// Each file of a unit is its own, or one of the files before it includes it.
pub fn each_file_is_reached()
    ensures { (shelf : Shelf) (unit file : ℕ) (front back : List ℕ)
        → closure_of shelf unit ≡ front ++ file ∷ back
        → (file ≡ unit) ⊎ Contains (flat_map (included shelf) front) file }
{}
