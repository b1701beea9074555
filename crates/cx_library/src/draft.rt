//! Libraries that are made name by name.
ghost use Rattle.std.specs.Prelude.{◌≡◌, ◌-◌, ◌<◌, IfOk, OnOk, OnErr, unwrap_or};
ghost use Rattle.std.specs.Option.{option_copied};
ghost use Rattle.cx_table.specs.NameTable.{value_of};
ghost use Rattle.cx_library.specs.Known.{allocating, describing, freeing, unknown};

use crate::described::Described;
use crate::join::{joined, joined_functions};
use crate::known::Known;
use crate::pod::Pod;
use crate::table::{defines_in, names_in, put};
use cx_base::{Define, List, NoMemory, Text};
use cx_table::{NameKey, NameTable};
use std::alloc::Global;
use std::marker::Model;

/// A library that is made name by name, for a reader of library files. [`Library::of`] makes it one
/// that can be asked. Contracts see what it knows.
#[derive(Drop)]
pub struct Draft {
    alloc: Global,
    key: NameKey,
    functions: NameTable<Known>,
    groups: u32,
    defines: NameTable<Text>,
    pods: NameTable<Pod>,
}

impl Model for Draft {
    ghost use Rattle.cx_library.specs.Library.{Contents, IsLibrary};

    ghost Value = { Contents };

    ghost view = { λ d. record {
      functions = d.functions;
      groups = d.groups;
      defines = d.defines;
      pods = d.pods;
    } };

    ghost invariant = { λ d. IsLibrary (record {
      functions = d.functions;
      groups = d.groups;
      defines = d.defines;
      pods = d.pods;
    }) };
}

/// What is known of a name.
fn known_of(alloc: Global, functions: &NameTable<Known>, name: &[u8]) -> Result<Known, NoMemory>
    ensures { IfOk result (λ known. known ≡ unwrap_or (value_of functions.now name.now) unknown) }
{
    match functions.get(name) {
        None => Ok(Known::new(alloc)),
        Some(known) => known.copy(),
    }
}

impl Draft {
    ghost use Rattle.cx_library.specs.Library.{IsLibrary, empty, merged, with_define};
    ghost use Rattle.cx_library.specs.Library.{with_function, with_group, with_pod};
    ghost use Rattle.cx_library.specs.Library.{function_of, macros_of, pod_names_of, pod_of};

    /// Nothing is known. The names to come are hashed with this key.
    pub fn new(alloc: Global, key: NameKey) -> Draft
        ensures { result ≡ empty }
    {
        Draft {
            alloc,
            key,
            functions: NameTable::new(alloc, key),
            groups: 0,
            defines: NameTable::new(alloc, key),
            pods: NameTable::new(alloc, key),
        }
    }

    /// A function is described (`function`): what was said of it before is replaced whole, and its
    /// memory group stays. What the description itself has of memory groups is passed over. A
    /// refused call changes nothing and gives the description up.
    pub fn describe(&mut self, name: Text, described: Described) -> Result<(), NoMemory>
        ensures ok { OnOk result (self.new ≡ with_function name (describing described) self.old) }
        ensures err { OnErr result (self.new ≡ self.old) }
    {
        let known = known_of(self.alloc, &self.functions, name.as_slice())?;
        put(&mut self.functions, name, known.describing(described))
    }

    /// Begins a memory group (`memory`), which has the number of those before it. One past `u32`
    /// counts as want of memory. A refused call changes nothing.
    pub fn add_group(&mut self) -> Result<(), NoMemory>
        ensures ok { OnOk result (self.new ≡ with_group self.old) }
        ensures err { OnErr result (self.new ≡ self.old) }
    {
        match self.groups.checked_add(1) {
            None => Err(NoMemory),
            Some(groups) => {
                self.groups = groups;
                Ok(())
            }
        }
    }

    /// A function allocates the blocks of the last memory group (`alloc`). A refused call changes
    /// nothing.
    pub fn allocates(&mut self, name: Text) -> Result<(), NoMemory>
        requires { 0 < self.old.groups }
        ensures ok { OnOk result
            (self.new ≡ with_function name (allocating (self.old.groups - 1)) self.old) }
        ensures err { OnErr result (self.new ≡ self.old) }
    {
        let known = known_of(self.alloc, &self.functions, name.as_slice())?;
        put(&mut self.functions, name, known.allocating(self.groups - 1))
    }

    /// A function frees the blocks of the last memory group (`dealloc`). A refused call changes
    /// nothing.
    pub fn frees(&mut self, name: Text) -> Result<(), NoMemory>
        requires { 0 < self.old.groups }
        ensures ok { OnOk result
            (self.new ≡ with_function name (freeing (self.old.groups - 1)) self.old) }
        ensures err { OnErr result (self.new ≡ self.old) }
    {
        let known = known_of(self.alloc, &self.functions, name.as_slice())?;
        put(&mut self.functions, name, known.freeing(self.groups - 1))
    }

    /// Defines a macro (`define`), also one that is defined. A refused call changes nothing.
    pub fn define(&mut self, define: Define) -> Result<(), NoMemory>
        ensures ok { OnOk result (self.new ≡ with_define define self.old) }
        ensures err { OnErr result (self.new ≡ self.old) }
    {
        let Define { name, value } = define;
        put(&mut self.defines, name, value)
    }

    /// Adds a podtype (`podtype`), also one that is known. A refused call changes nothing.
    pub fn add_pod(&mut self, name: Text, pod: Pod) -> Result<(), NoMemory>
        ensures ok { OnOk result (self.new ≡ with_pod name pod self.old) }
        ensures err { OnErr result (self.new ≡ self.old) }
    {
        put(&mut self.pods, name, pod)
    }

    /// What this and a later library know. A refused call gives this one up.
    pub(crate) fn merged(self, later: &Draft) -> Result<Draft, NoMemory>
        ensures { IfOk result (λ draft. draft ≡ merged self later.now) }
    {
        let Draft {
            alloc,
            key,
            functions,
            groups,
            defines,
            pods,
        } = self;
        let functions = joined_functions(alloc, functions, groups, &later.functions)?;
        let defines = joined(alloc, defines, &later.defines)?;
        let pods = joined(alloc, pods, &later.pods)?;
        match groups.checked_add(later.groups) {
            None => Err(NoMemory),
            Some(groups) => Ok(Draft {
                alloc,
                key,
                functions,
                groups,
                defines,
                pods,
            }),
        }
    }

    /// The same again.
    pub(crate) fn copy(&self) -> Result<Draft, NoMemory>
        ensures { IfOk result (λ draft. draft ≡ self.now) }
    {
        let draft = Draft::new(self.alloc, self.key);
        let draft = draft.merged(self)?;
        Ok(draft)
    }

    /// What is said of a function, and what it does in its last memory group.
    pub(crate) fn function(&self, name: &[u8]) -> Option<&Described>
        ensures described { option_copied result ≡ function_of self.now name.now }
        ensures whole { IsLibrary self.now }
    {
        match self.functions.get(name) {
            None => None,
            Some(known) => Some(&known.described),
        }
    }

    /// The podtype with a name.
    pub(crate) fn pod(&self, name: &[u8]) -> Option<Pod>
        ensures { result ≡ pod_of self.now name.now }
    {
        match self.pods.get(name) {
            None => None,
            Some(pod) => Some(*pod),
        }
    }

    /// The macros as a list.
    pub(crate) fn macros(&self) -> Result<List<Define>, NoMemory>
        ensures { IfOk result (λ macros. macros ≡ macros_of self.now) }
    {
        defines_in(self.alloc, &self.defines)
    }

    /// The names of the podtypes as a list.
    pub(crate) fn pod_names(&self) -> Result<List<Text>, NoMemory>
        ensures { IfOk result (λ names. names ≡ pod_names_of self.now) }
    {
        names_in(self.alloc, &self.pods)
    }
}
