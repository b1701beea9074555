//! Libraries.
ghost use Rattle.std.specs.Prelude.{◌≡◌, IfOk, OnOk, OnErr};
ghost use Rattle.std.specs.Option.{option_copied};

use crate::described::Described;
use crate::draft::Draft;
use crate::pod::Pod;
use cx_base::{Define, List, NoMemory, Text};
use cx_table::NameKey;
use std::alloc::Global;
use std::marker::Model;

/// What is known of the functions, macros and types of the C library. Contracts see the lists of
/// the names, each with what is known of it.
#[derive(Drop)]
pub struct Library {
    known: Draft,
    // The macros, and the names of the podtypes, as they are asked for.
    macros: List<Define>,
    pod_names: List<Text>,
}

impl Model for Library {
    ghost use Rattle.std.specs.Prelude.{◌≡◌};
    ghost use Rattle.cx_library.specs.Library.{Contents, macros_of, pod_names_of};

    ghost Value = { Contents };

    ghost view = { λ l. l.known };

    ghost invariant = { λ l. (l.macros ≡ macros_of l.known)
        × (l.pod_names ≡ pod_names_of l.known) };
}

impl Library {
    ghost use Rattle.cx_library.specs.Library.{IsLibrary, empty, function_of, macros_of, merged};
    ghost use Rattle.cx_library.specs.Library.{pod_names_of, pod_of};

    /// Nothing is known.
    pub fn new(alloc: Global, key: NameKey) -> Library
        ensures { result ≡ empty }
    {
        Library {
            known: Draft::new(alloc, key),
            macros: List::new(alloc),
            pod_names: List::new(alloc),
        }
    }

    /// What a draft knows. A refused call gives the draft up.
    pub fn of(draft: Draft) -> Result<Library, NoMemory>
        ensures { IfOk result (λ library. library ≡ draft) }
    {
        let macros = draft.macros()?;
        let pod_names = draft.pod_names()?;
        Ok(Library {
            known: draft,
            macros,
            pod_names,
        })
    }

    /// An equal library.
    pub fn copy(&self) -> Result<Library, NoMemory>
        ensures { IfOk result (λ library. library ≡ self.now) }
    {
        let draft = self.known.copy()?;
        Library::of(draft)
    }

    /// Adds what a later library knows: it replaces what was said of a function, a macro or a
    /// podtype whole, and the name keeps its place. The memory groups of the later library are
    /// numbered on from those of this one, and the last group of a name counts. A refused call
    /// changes nothing and gives the later library up; a number of a group past `u32` counts as
    /// want of memory.
    pub fn merge(&mut self, later: Library) -> Result<(), NoMemory>
        ensures ok { OnOk result (self.new ≡ merged self.old later) }
        ensures err { OnErr result (self.new ≡ self.old) }
    {
        let draft = self.known.copy()?;
        let draft = draft.merged(&later.known)?;
        let library = Library::of(draft)?;
        *self = library;
        Ok(())
    }

    /// What is said of a function, and what it does in its last memory group, where the library
    /// describes it or has it in a group. It takes no memory.
    pub fn function(&self, name: &[u8]) -> Option<&Described>
        ensures described { option_copied result ≡ function_of self.now name.now }
        ensures whole { IsLibrary self.now }
    {
        self.known.function(name)
    }

    /// The names of the podtypes, in the order in which they were seen first. It takes no memory.
    pub fn pods(&self) -> &List<Text>
        ensures { result.now ≡ pod_names_of self.now }
    {
        &self.pod_names
    }

    /// The podtype with a name. It takes no memory.
    pub fn pod(&self, name: &[u8]) -> Option<Pod>
        ensures { result ≡ pod_of self.now name.now }
    {
        self.known.pod(name)
    }

    /// The macros, in the order in which they were seen first. It takes no memory.
    pub fn defines(&self) -> &List<Define>
        ensures { result.now ≡ macros_of self.now }
    {
        &self.macros
    }
}
