//! Laws of what is chosen, each by the contract of a function that does nothing.
ghost use Rattle.std.specs.Prelude.{◌≡◌, ℕ, ◌+◌, ◌<◌, ◌≤◌, All, List, Option, Some, [], ◌∷◌, ◌++◌, false, length, true};
ghost use Rattle.cx_tokens.specs.declared.token.Token.{Token};
ghost use Rattle.cx_lex.specs.declared.piece.Piece.{Piece};
ghost use Rattle.cx_lines.specs.Kinds.{closes, is_text, kind_of, opens, parts};
ghost use Rattle.cx_lines.specs.Lines.{lines_of};
ghost use Rattle.cx_lines.specs.Nesting.{IsInner};
ghost use Rattle.cx_lines.specs.Whole.{AreWhole};
ghost use Rattle.cx_lines.specs.declared.kind.LineKind.TheVariants.{Ifndef, Include, Once};
ghost use Rattle.cx_lines.specs.declared.nesting.NestingFault.{NestingFault};
ghost use Rattle.cx_macro.specs.Expansion.{ExpandsList, expanded, most_laid};
ghost use Rattle.cx_directive.specs.declared.include.Target.{Target};
ghost use Rattle.cx_directive.specs.Answers.{is_defined};
ghost use Rattle.cx_directive.specs.Operands.{name_of, operands, target_of, tokens_of};
ghost use Rattle.cx_pre.specs.declared.config.Config.{Config};
ghost use Rattle.cx_shelf.specs.declared.shelf.Shelf.{Shelf};
ghost use Rattle.cx_pre.specs.Choosing.{Comes, Does, Enters, IsChosen};
ghost use Rattle.cx_pre.specs.Conditions.{Choice, Chooses, Decides, Decision, decided};
ghost use Rattle.cx_shelf.specs.Searches.{found};
ghost use Rattle.cx_shelf.specs.Shelves.{path_of, pieces_of};
ghost use Rattle.cx_pre.specs.Stages.{Answer, Outcome, Stage, is_once, through, with_laid, with_text};
ghost use Rattle.cx_pre.specs.Starts.{in_file};

/// A line that asks decides at most one thing, and a section has at most one choice.
pub fn one_choice()
    ensures decision { (s : Stage) (line : List Piece) (some other : Decision)
        → Decides s line some → Decides s line other → some ≡ other }
    ensures choice { (s : Stage) (line : List Piece) (rest : List (List Piece))
        (some other : Choice) → Chooses s line rest some → Chooses s line rest other
        → some ≡ other }
{}

/// At most one thing comes of a file.
pub fn one_outcome()
    ensures { (shelf : Shelf) (depth file : ℕ) (s : Stage) (outcome other : Outcome)
        → Enters shelf depth file s outcome → Enters shelf depth file s other → outcome ≡ other }
{}

/// Something comes of each file, where no more tokens were laid before than may be.
pub fn some_outcome()
    ensures { (shelf : Shelf) (depth file : ℕ) (s : Stage) → s.laid ≤ most_laid
        → (outcome : Outcome) × Enters shelf depth file s outcome }
{}

/// Where a file is gone through, each file in which a `pragma once` was met before stays marked.
pub fn marks_stay()
    ensures count { (shelf : Shelf) (depth file : ℕ) (s after : Stage)
        → Enters shelf depth file s (through after) → length after.once ≡ length s.once }
    ensures marks { (shelf : Shelf) (depth file other : ℕ) (s after : Stage)
        → Enters shelf depth file s (through after) → is_once other s ≡ true
        → is_once other after ≡ true }
{}

/// A file whose first line is a `pragma once` is marked where it is gone through.
pub fn once_is_marked()
    ensures { (shelf : Shelf) (depth file : ℕ) (s after : Stage) (line : List Piece)
        (rest : List (List Piece)) → lines_of (pieces_of shelf file) ≡ line ∷ rest
        → kind_of line ≡ Once → file < length s.once
        → Enters shelf depth file s (through after) → is_once file after ≡ true }
{}

/// At most one thing is chosen of a unit in a configuration.
pub fn one_answer()
    ensures { (shelf : Shelf) (unit : ℕ) (config : Config) (some other : Answer)
        → IsChosen shelf unit config some → IsChosen shelf unit config other → some ≡ other }
{}

/// Something is chosen of each unit in each configuration.
pub fn some_answer()
    ensures { (shelf : Shelf) (unit : ℕ) (config : Config)
        → (answer : Answer) × IsChosen shelf unit config answer }
{}

/// A file without directives is its own expansion.
pub fn text_is_its_expansion()
    ensures { (shelf : Shelf) (depth file : ℕ) (s : Stage) (ts : List Token) (laid : ℕ)
        → s.laid ≤ most_laid
        → All (λ line. is_text (kind_of line) ≡ true) (lines_of (pieces_of shelf file))
        → ExpandsList (in_file shelf file s).macros most_laid s.laid
        (tokens_of (pieces_of shelf file)) (expanded ts laid)
        → Enters shelf depth file s (through (with_text ts laid (in_file shelf file s))) }
{}

/// A group that is not chosen changes nothing: what comes of the lines after its section comes of
/// the whole, but for what replacing the macros of its condition has laid.
pub fn unchosen_groups_change_nothing()
    ensures { (shelf : Shelf) (depth file : ℕ) (fault : Option NestingFault) (s : Stage) (laid : ℕ)
        (line end : List Piece) (group rest : List (List Piece)) (outcome : Outcome)
        → opens (kind_of line) ≡ true → Decides s line (decided false laid) → AreWhole group
        → closes (kind_of end) ≡ true
        → Comes shelf depth file fault (with_laid laid s) rest outcome
        → Comes shelf depth file fault s (line ∷ (group ++ end ∷ rest)) outcome }
{}

/// The groups after the one that was chosen change nothing, nor does the end of their section.
pub fn groups_after_the_chosen_change_nothing()
    ensures groups { (shelf : Shelf) (depth file : ℕ) (fault : Option NestingFault) (s : Stage)
        (part : List Piece) (groups rest : List (List Piece)) (outcome : Outcome)
        → parts (kind_of part) ≡ true → IsInner groups
        → Comes shelf depth file fault s rest outcome
        → Comes shelf depth file fault s (part ∷ (groups ++ rest)) outcome }
    ensures end { (shelf : Shelf) (depth file : ℕ) (fault : Option NestingFault) (s : Stage)
        (end : List Piece) (rest : List (List Piece)) (outcome : Outcome)
        → closes (kind_of end) ≡ true → Comes shelf depth file fault s rest outcome
        → Comes shelf depth file fault s (end ∷ rest) outcome }
{}

/// A file within `ifndef` of a name that is defined gives nothing.
pub fn closed_guards_give_nothing()
    ensures { (shelf : Shelf) (depth file : ℕ) (s : Stage) (guard end : List Piece)
        (group : List (List Piece)) (name : List ℕ)
        → lines_of (pieces_of shelf file) ≡ guard ∷ (group ++ end ∷ [])
        → kind_of guard ≡ Ifndef → name_of (operands guard) ≡ Some name → AreWhole group
        → closes (kind_of end) ≡ true → is_defined (in_file shelf file s).macros name ≡ true
        → Enters shelf depth file s (through (in_file shelf file s)) }
{}

/// An include of a file in which a `pragma once` was met gives nothing.
pub fn once_is_enough()
    ensures { (shelf : Shelf) (depth file other : ℕ) (s : Stage) (line : List Piece)
        (target : Target) → kind_of line ≡ Include → target_of (operands line) ≡ Some target
        → found shelf (path_of shelf file) target ≡ Some other → is_once other s ≡ true
        → Does shelf (depth + 1) file s line (through s) }
{}
