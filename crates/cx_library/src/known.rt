//! What is known of a function.
ghost use Rattle.std.specs.Prelude.{◌≡◌, ◌+◌, IfOk, option_map};
ghost use Rattle.cx_library.specs.Known.{allocating, describing, freeing, in_group};
ghost use Rattle.cx_library.specs.Known.{is_grouped, last_grouped, over, renumbered, unknown};

use crate::described::Described;
use cx_base::{Duplicate, NoMemory};
use std::alloc::Global;

/// What is known of a function.
#[derive(Debug, Drop)]
pub(crate) struct Known {
    /// What is said of it, and what it does in its last memory group.
    pub described: Described,
    /// Whether a `function` element says it, or memory groups alone have the name.
    pub stated: bool,
}

/// The number of a group, where it is this one.
fn in_group(group: u32, number: Option<u32>) -> Option<u32>
    ensures { result ≡ in_group group number }
{
    match number {
        None => None,
        Some(number) if number == group => Some(number),
        Some(_) => None,
    }
}

/// The number of a group, raised by this.
fn raised(by: u32, number: Option<u32>) -> Result<Option<u32>, NoMemory>
    ensures { IfOk result (λ raised. raised ≡ option_map (λ n. by + n) number) }
{
    match number {
        None => Ok(None),
        Some(number) => match by.checked_add(number) {
            None => Err(NoMemory),
            Some(number) => Ok(Some(number)),
        },
    }
}

/// Whether a function is in a memory group.
fn is_grouped(described: &Described) -> bool
    ensures { result ≡ is_grouped described.now }
{
    described.allocates.is_some() || described.frees.is_some()
}

/// What a function does in its last memory group: the groups that it allocates and frees in.
type Group = (Option<u32>, Option<u32>);

/// What a description has of memory groups.
fn group_of(described: &Described) -> Group
    ensures { result ≡ (described.now.allocates, described.now.frees) }
{
    (described.allocates, described.frees)
}

/// What the later description has of memory groups, or else the earlier.
fn last_group(earlier: &Described, later: &Described) -> Group
    ensures { let d = last_grouped earlier.now later.now in result ≡ (d.allocates, d.frees) }
{
    if is_grouped(later) {
        group_of(later)
    } else {
        group_of(earlier)
    }
}

/// A description, with this of memory groups.
fn grouped_as(group: Group, described: Described) -> Described
    ensures { result ≡ record described { allocates = group.0; frees = group.1 } }
{
    let mut described = described;
    described.allocates = group.0;
    described.frees = group.1;
    described
}

impl Known {
    /// Nothing is known.
    pub(crate) fn new(alloc: Global) -> Known
        ensures { result ≡ unknown }
    {
        Known {
            described: Described::new(alloc),
            stated: false,
        }
    }

    /// The same again.
    pub(crate) fn copy(&self) -> Result<Known, NoMemory>
        ensures { IfOk result (λ known. known ≡ self.now) }
    {
        let described = self.described.copy()?;
        Ok(Known {
            described,
            stated: self.stated,
        })
    }

    /// A `function` element says this.
    pub(crate) fn describing(&self, described: Described) -> Known
        ensures { result ≡ describing described self.now }
    {
        Known {
            described: grouped_as(group_of(&self.described), described),
            stated: true,
        }
    }

    /// It is `alloc` in a memory group.
    pub(crate) fn allocating(self, group: u32) -> Known
        ensures { result ≡ allocating group self }
    {
        let mut described = self.described;
        described.frees = in_group(group, described.frees);
        described.allocates = Some(group);
        Known {
            described,
            stated: self.stated,
        }
    }

    /// It is `dealloc` in a memory group.
    pub(crate) fn freeing(self, group: u32) -> Known
        ensures { result ≡ freeing group self }
    {
        let mut described = self.described;
        described.allocates = in_group(group, described.allocates);
        described.frees = Some(group);
        Known {
            described,
            stated: self.stated,
        }
    }

    /// The same in memory groups whose numbers are higher by this. A number past `u32` counts as
    /// want of memory.
    pub(crate) fn renumbered(self, by: u32) -> Result<Known, NoMemory>
        ensures { IfOk result (λ known. known ≡ renumbered by self) }
    {
        let mut described = self.described;
        described.allocates = raised(by, described.allocates)?;
        described.frees = raised(by, described.frees)?;
        Ok(Known {
            described,
            stated: self.stated,
        })
    }

    /// What this and an earlier library know.
    pub(crate) fn over(self, earlier: &Known) -> Result<Known, NoMemory>
        ensures { IfOk result (λ known. known ≡ over earlier.now self) }
    {
        let Known { described, stated } = self;
        let group = last_group(&earlier.described, &described);
        let said = if stated {
            described
        } else {
            earlier.described.copy()?
        };
        Ok(Known {
            described: grouped_as(group, said),
            stated: earlier.stated || stated,
        })
    }
}

impl Duplicate for Known {
    fn duplicate(&self) -> Result<Known, NoMemory> {
        self.copy()
    }
}
