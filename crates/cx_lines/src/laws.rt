//! Laws of lines.
ghost use Rattle.std.specs.Prelude.{◌≡◌, ◌∷◌, ◌++◌, List as list, None, flat_map, true};
ghost use Rattle.cx_lex.specs.declared.piece.Piece.{Piece as piece};
ghost use Rattle.cx_lines.specs.Kinds.{ends_group, kind_of};
ghost use Rattle.cx_lines.specs.Lines.{AreLines, lines_of};
ghost use Rattle.cx_lines.specs.Nesting.{AreNested, IsInner, Line as line, after_section, extent_of, from_part};
ghost use Rattle.cx_lines.specs.Whole.{AreWhole, HasFault, StopsAt};

/// The lines of a source are its pieces, in order.
pub fn lines_are_the_pieces()
    ensures { (pieces : list piece) → flat_map (λ line. line) (lines_of pieces) ≡ pieces }
{}

/// Each line has a piece, behind the first no piece is the first on its line, and behind the first
/// line each begins with such a piece.
pub fn no_line_begins_within_a_line()
    ensures { (pieces : list piece) → AreLines (lines_of pieces) }
{}

/// A group is passed over up to the line that ends it, however sections are nested in it, and so is
/// what is left of a section up to its `endif`.
pub fn nested_lines_are_passed()
    ensures group { (lines rest : list line) (part : line) → AreNested lines
        → ends_group (kind_of part) ≡ true → from_part 0 (lines ++ part ∷ rest) ≡ part ∷ rest }
    ensures section { (inner rest : list line) → IsInner inner
        → after_section 0 (inner ++ rest) ≡ rest }
{}

/// Lines have no fault exactly if their sections are whole, and are then nested, and all of them
/// are gone through.
pub fn whole_lines_have_no_fault()
    ensures forth { (lines : list line) → AreWhole lines
        → extent_of lines ≡ record { front = lines; fault = None } }
    ensures back { (lines : list line) → (extent_of lines).fault ≡ None → AreWhole lines }
    ensures all { (lines : list line) → (extent_of lines).fault ≡ None
        → (extent_of lines).front ≡ lines }
    ensures nested { (lines : list line) → AreWhole lines → AreNested lines }
{}

/// The lines that nest stand in front of all lines, and behind them is nothing or a stray line, at
/// the place of the fault.
pub fn front_is_a_front()
    ensures { (lines : list line) → (rest : list line)
        × (lines ≡ (extent_of lines).front ++ rest) × StopsAt (extent_of lines).fault rest }
{}

/// The fault is what it says: behind the front stands a line with no section that it goes on or
/// ends, or the front ends in a section that is open, and none within that is.
pub fn each_fault_is_there()
    ensures { (lines : list line) → (rest : list line)
        × (lines ≡ (extent_of lines).front ++ rest)
        × HasFault (extent_of lines).fault (extent_of lines).front rest }
{}
