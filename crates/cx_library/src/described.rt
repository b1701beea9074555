//! What is said of a function.
ghost use Rattle.std.specs.Prelude.{◌≡◌, IfOk};
ghost use Rattle.cx_library.specs.Known.{undescribed};

use cx_base::{Duplicate, List, NoMemory, Text};
use std::alloc::Global;

/// What is said of a function (`function`), and what it does in a memory group (`memory`).
#[derive(Debug, Drop)]
pub struct Described {
    /// It never returns (`noreturn`).
    pub noreturn: bool,
    /// Its result has to be used (`use-retval`).
    pub must_use_result: bool,
    /// It has no effect but its result (`pure`).
    pub pure: bool,
    /// Besides, its result depends on its arguments alone (`const`).
    pub constant: bool,
    /// The type that it returns (`returnValue`, the attribute).
    pub returns: Option<ReturnKind>,
    /// The number that it returns (`returnValue`, the text).
    pub value: Option<i128>,
    /// The rules of its arguments (`arg`).
    pub args: List<ArgRule>,
    /// The number of the memory group whose blocks it allocates (`alloc`).
    pub allocates: Option<u32>,
    /// The number of the memory group whose blocks it frees (`dealloc`).
    pub frees: Option<u32>,
}

/// A type that is returned: its names, with a space between two, and how many stars stand behind.
#[derive(Debug, Drop)]
pub struct ReturnKind {
    pub names: Text,
    pub stars: u32,
}

/// What holds of an argument (`arg`).
#[derive(Debug, Drop)]
pub struct ArgRule {
    pub nr: ArgNr,
    pub direction: Direction,
    /// It must not be null (`not-null`).
    pub not_null: bool,
    /// It must have a value (`not-uninit`).
    pub not_uninit: bool,
    /// The numbers that it may be (`valid`): those of any of these ranges, or all if there is none.
    pub ranges: List<Bounds>,
    /// The ranges as they are written.
    pub valid: Text,
}

/// Which arguments a rule is for.
#[derive(Clone, Copy, Debug, PartialEq, Eq)]
pub enum ArgNr {
    /// The argument with this number, counted from 1.
    Number(u8),
    /// Each argument that has no other rule.
    Any,
    /// Each argument behind those that have a number.
    Variadic,
}

/// Which way the value goes that an argument points to (`direction`).
#[derive(Clone, Copy, Debug, PartialEq, Eq)]
pub enum Direction {
    Unstated,
    In,
    Out,
    InOut,
}

/// A range of numbers. Both ends belong to it, and a side without an end is open.
#[derive(Clone, Copy, Debug, PartialEq, Eq)]
pub struct Bounds {
    pub least: Option<i128>,
    pub greatest: Option<i128>,
}

impl Duplicate for Bounds {
    fn duplicate(&self) -> Result<Bounds, NoMemory> {
        Ok(*self)
    }
}

impl ArgRule {
    /// An equal rule.
    pub fn copy(&self) -> Result<ArgRule, NoMemory>
        ensures { IfOk result (λ r. r ≡ self.now) }
    {
        let ranges = self.ranges.copy()?;
        let valid = self.valid.copy()?;
        Ok(ArgRule {
            nr: self.nr,
            direction: self.direction,
            not_null: self.not_null,
            not_uninit: self.not_uninit,
            ranges,
            valid,
        })
    }
}

impl Duplicate for ArgRule {
    fn duplicate(&self) -> Result<ArgRule, NoMemory> {
        self.copy()
    }
}

impl ReturnKind {
    /// An equal type.
    pub fn copy(&self) -> Result<ReturnKind, NoMemory>
        ensures { IfOk result (λ r. r ≡ self.now) }
    {
        let names = self.names.copy()?;
        Ok(ReturnKind {
            names,
            stars: self.stars,
        })
    }
}

impl Duplicate for ReturnKind {
    fn duplicate(&self) -> Result<ReturnKind, NoMemory> {
        self.copy()
    }
}

/// A copy of what may be there.
fn copy_of(returns: &Option<ReturnKind>) -> Result<Option<ReturnKind>, NoMemory>
    ensures { IfOk result (λ r. r ≡ returns.now) }
{
    match returns {
        None => Ok(None),
        Some(returns) => Ok(Some(returns.copy()?)),
    }
}

impl Described {
    /// Nothing is said.
    pub fn new(alloc: Global) -> Described
        ensures { result ≡ undescribed }
    {
        Described {
            noreturn: false,
            must_use_result: false,
            pure: false,
            constant: false,
            returns: None,
            value: None,
            args: List::new(alloc),
            allocates: None,
            frees: None,
        }
    }

    /// An equal description.
    pub fn copy(&self) -> Result<Described, NoMemory>
        ensures { IfOk result (λ d. d ≡ self.now) }
    {
        let returns = copy_of(&self.returns)?;
        let args = self.args.copy()?;
        Ok(Described {
            noreturn: self.noreturn,
            must_use_result: self.must_use_result,
            pure: self.pure,
            constant: self.constant,
            returns,
            value: self.value,
            args,
            allocates: self.allocates,
            frees: self.frees,
        })
    }
}

impl Duplicate for Described {
    fn duplicate(&self) -> Result<Described, NoMemory> {
        self.copy()
    }
}
