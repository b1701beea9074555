//! The names that no configuration has.
ghost use Rattle.std.specs.Prelude.{◌≡◌, [], IfOk, MatchOption, None, OnOk, Some, codes, map};
ghost use Rattle.std.specs.List.{filter_map, flat_map};
ghost use Rattle.cx_lines.specs.Lines.{lines_of};
ghost use Rattle.cx_configs.specs.Configurations.{defined_name, is_among, lines_in};
ghost use Rattle.cx_configs.specs.Configurations.{names_defined, predefined, settled_names};
ghost use Rattle.cx_configs.specs.Questions.{Name};
ghost use Rattle.cx_configs.specs.Shapes.Sets.{is_settled, with_all_settled, with_settled};

use cx_base::{Define, NoMemory, Text};
use cx_directive::{name_of, operands};
use cx_lex::Piece;
use cx_lines::{LineKind, first_line, kind_of};
use cx_options::Options;
use cx_shelf::{Shelf, pieces_of};
use cx_table::{NameKey, NameTable};
use std::alloc::Global;
use std::marker::Model;

/// Names that are defined already, or stay undefined, whatever the configuration.
#[derive(Drop)]
pub(crate) struct Settled {
    names: NameTable<()>,
}

impl Model for Settled {
    ghost use Rattle.cx_table.specs.NameTable.{Entries};

    ghost Value = { Entries (Unit {0}) };

    ghost view = { λ s. s.names };
}

/// The name that a line defines, whatever its form.
fn defined_name(line: &[Piece]) -> Option<&[u8]>
    ensures { MatchOption result (defined_name line.now ≡ None)
        (λ name. defined_name line.now ≡ Some name.now) }
{
    match kind_of(line) {
        LineKind::Define => name_of(operands(line)),
        _ => None,
    }
}

impl Settled {
    /// The names that are settled for a unit of these files: those of the macros that stand before
    /// every unit (C11 6.10.8.1), that any line of a file defines, that the library or a word
    /// defines, and that a word undefines.
    #[tactic(auto, using(crate::proofs::SettledLaws::settled_in_turn))]
    pub(crate) fn of(
        alloc: Global,
        key: NameKey,
        shelf: &Shelf,
        files: &[usize],
        library: &[Define],
        options: &Options,
    ) -> Result<Settled, NoMemory>
        ensures { IfOk result (λ s. s ≡ with_all_settled []
            (settled_names (lines_in shelf.now files.now) library.now options.now)) }
    {
        let mut settled = Settled {
            names: NameTable::new(alloc, key),
        };
        settled.insert_predefined(alloc)?;
        settled.insert_files(alloc, shelf, files)?;
        settled.insert_defines(alloc, library)?;
        settled.insert_defines(alloc, options.defines.as_slice())?;
        settled.insert_names(alloc, options.undefined.as_slice())?;
        Ok(settled)
    }

    /// The names that a word undefines.
    #[tactic(auto, using(crate::proofs::SettledLaws::settled_are))]
    pub(crate) fn undefined(
        alloc: Global,
        key: NameKey,
        options: &Options,
    ) -> Result<Settled, NoMemory>
        ensures { IfOk result
            (λ s. (n : Name) → is_settled s n ≡ is_among options.now.undefined n) }
    {
        let mut undefined = Settled {
            names: NameTable::new(alloc, key),
        };
        undefined.insert_names(alloc, options.undefined.as_slice())?;
        Ok(undefined)
    }

    /// Whether a name is one of these.
    pub(crate) fn contains(&self, name: &[u8]) -> bool
        ensures { result ≡ is_settled self.now name.now }
    {
        self.names.contains(name)
    }

    fn insert(&mut self, alloc: Global, name: &[u8]) -> Result<(), NoMemory>
        ensures { OnOk result (self.new ≡ with_settled self.old name.now) }
    {
        let name = Text::from_slice(alloc, name)?;
        self.names.insert(name, ())?;
        Ok(())
    }

    /// Inserts the names of the macros that stand before every unit.
    #[tactic(auto, unfolding(crate::specs::Shapes::Sets::with_all_settled))]
    fn insert_predefined(&mut self, alloc: Global) -> Result<(), NoMemory>
        ensures { OnOk result (self.new ≡ with_all_settled self.old predefined) }
    {
        self.insert(alloc, b"__FILE__")?;
        self.insert(alloc, b"__LINE__")?;
        self.insert(alloc, b"__STDC__")?;
        self.insert(alloc, b"__STDC_VERSION__")
    }

    /// Inserts the names that the lines of a file define.
    #[tactic(auto, using(crate::proofs::SettledLaws::settled_end), unfolding(crate::specs::Shapes::Sets::with_all_settled))]
    fn insert_lines(&mut self, alloc: Global, pieces: &[Piece]) -> Result<(), NoMemory>
        ensures { OnOk result (self.new
            ≡ with_all_settled self.old (filter_map defined_name (lines_of pieces.now))) }
    {
        let mut rest = pieces;
        while let Some((line, more)) = first_line(rest) {
            if let Some(name) = defined_name(line) {
                self.insert(alloc, name)?;
            }
            rest = more;
        }
        Ok(())
    }

    /// Inserts the names that the lines of files define.
    fn insert_files(
        &mut self,
        alloc: Global,
        shelf: &Shelf,
        files: &[usize],
    ) -> Result<(), NoMemory>
        ensures { OnOk result (self.new ≡ with_all_settled self.old
            (flat_map (λ lines. filter_map defined_name lines) (lines_in shelf.now files.now))) }
    {
        for file in files {
            self.insert_lines(alloc, pieces_of(shelf, *file))?;
        }
        Ok(())
    }

    /// Inserts the names of definitions.
    #[tactic(auto, unfolding(crate::specs::Shapes::Sets::with_all_settled))]
    fn insert_defines(&mut self, alloc: Global, defines: &[Define]) -> Result<(), NoMemory>
        ensures { OnOk result (self.new
            ≡ with_all_settled self.old (names_defined defines.now)) }
    {
        for define in defines {
            self.insert(alloc, define.name.as_slice())?;
        }
        Ok(())
    }

    #[tactic(auto, unfolding(crate::specs::Shapes::Sets::with_all_settled))]
    fn insert_names(&mut self, alloc: Global, names: &[Text]) -> Result<(), NoMemory>
        ensures { OnOk result (self.new ≡ with_all_settled self.old names.now) }
    {
        for name in names {
            self.insert(alloc, name.as_slice())?;
        }
        Ok(())
    }
}
