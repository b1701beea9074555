//! Lists that are shared.
ghost use Rattle.std.specs.Prelude.{◌≡◌, [], IfOk, length};

use crate::errors::NoMemory;
use crate::list::{Duplicate, List};
use std::alloc::Global;
use std::marker::Model;
use std::sync::Arc;

/// A list that does not change, of which a copy costs one step and no memory. Contracts see the
/// list of its members. The empty list takes no memory.
#[derive(Debug, Drop)]
pub struct SharedList<T> {
    items: Option<Arc<List<T>>>,
}

impl<T> Model for SharedList<T> {
    ghost use Rattle.std.specs.Prelude.{List};
    ghost use Rattle.std.specs.Coded.{coded_list};

    ghost Value = { List T };

    ghost coded = { coded_list T.code };

    ghost use Rattle.std.specs.Arc.{arc_value};
    ghost use Rattle.cx_base.specs.Shared.{members_in};

    ghost view = { λ l. members_in (λ a. arc_value a) l.items };
}

impl<T> SharedList<T> {
    /// The empty list.
    pub fn new() -> SharedList<T>
        ensures { result ≡ [] }
    {
        SharedList { items: None }
    }

    pub fn as_slice(&self) -> &[T]
        ensures { result.now ≡ self.now }
    {
        match &self.items {
            None => &[],
            Some(items) => items.as_slice(),
        }
    }

    pub fn len(&self) -> usize
        ensures { result ≡ length self.now }
    {
        self.as_slice().len()
    }

    /// The same list once more. It is refused only where there are too many copies.
    pub fn share(&self) -> Result<SharedList<T>, NoMemory>
        ensures { IfOk result (λ l. l ≡ self.now) }
    {
        match &self.items {
            None => Ok(SharedList { items: None }),
            Some(items) => Ok(SharedList {
                items: Some(Arc::try_clone(items)?),
            }),
        }
    }
}

impl<T: Drop> SharedList<T> {
    /// A list that is given up, to be shared.
    pub fn from_list(alloc: Global, list: List<T>) -> Result<SharedList<T>, NoMemory>
        ensures { IfOk result (λ l. l ≡ list) }
    {
        if list.len() == 0 {
            return Ok(SharedList { items: None });
        }
        match Arc::new(alloc, list) {
            Ok(items) => Ok(SharedList { items: Some(items) }),
            Err(_) => Err(NoMemory),
        }
    }
}

impl<T: Drop> Duplicate for SharedList<T> {
    fn duplicate(&self) -> Result<SharedList<T>, NoMemory> {
        self.share()
    }
}
