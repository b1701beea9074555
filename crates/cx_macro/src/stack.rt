//! Stacks.
ghost use Rattle.std.specs.Prelude.{◌≡◌, List as list, [], ◌∷◌, ◌++◌, length, ◌==◌, OnOk, OnErr, MatchOption, reverse};

use cx_base::NoMemory;
use std::alloc::Global;
use std::marker::Model;
use std::mem;

/// A stack, which contracts see as the list of its members from the top.
#[derive(Drop)]
pub(crate) struct Stack<T> {
    items: Vec<T>,
}

impl<T> Model for Stack<T> {
    ghost use Rattle.std.specs.Prelude.{List, reverse};
    ghost use Rattle.std.specs.Coded.{coded_list};

    ghost Value = { List T };

    ghost coded = { coded_list T.code };

    ghost view = { λ s. reverse s.items.items };
}

impl<T> Stack<T> {
    /// The empty stack.
    pub(crate) fn new(alloc: Global) -> Stack<T>
        ensures { result ≡ [] }
    {
        Stack {
            items: Vec::new(alloc),
        }
    }

    /// A stack with the first of these on top.
    pub(crate) fn from_vec(items: Vec<T>) -> Stack<T>
        ensures { result ≡ items.items }
    {
        let mut items = items;
        items.as_mut_slice().reverse();
        Stack { items }
    }

    /// The members, the one on top first.
    pub(crate) fn into_vec(self) -> Vec<T>
        ensures { result.items ≡ self }
    {
        let mut items = self.items;
        items.as_mut_slice().reverse();
        items
    }

    /// The members, the one on top last.
    pub(crate) fn as_slice(&self) -> &[T]
        ensures { reverse result.now ≡ self.now }
    {
        self.items.as_slice()
    }

    /// Whether it has no member.
    pub(crate) fn is_empty(&self) -> bool
        ensures { result ≡ (length self.now == 0) }
    {
        self.items.is_empty()
    }

    /// The member on top.
    pub(crate) fn peek(&self) -> Option<&T>
        ensures { MatchOption result (self.now ≡ [])
            (λ x. (rest : list T) × (self.now ≡ x.now ∷ rest)) }
    {
        self.items.last()
    }

    /// Takes the member on top.
    pub(crate) fn pop(&mut self) -> Option<T>
        ensures { MatchOption result ((self.old ≡ []) × (self.new ≡ []))
            (λ x. self.old ≡ x ∷ self.new) }
    {
        self.items.pop()
    }
}

impl<T: Drop> Stack<T> {
    /// Puts another member in the place of the one on top.
    pub(crate) fn replace(&mut self, item: T) -> Option<T>
        ensures { MatchOption result ((self.old ≡ []) × (self.new ≡ []))
            (λ x. (rest : list T) × (self.old ≡ x ∷ rest) × (self.new ≡ item ∷ rest)) }
    {
        let top = self.items.last_mut()?;
        Some(mem::replace(top, item))
    }

    /// Puts a member on top; a refused call changes nothing and gives the member up.
    pub(crate) fn push(&mut self, item: T) -> Result<(), NoMemory>
        ensures ok { OnOk result (self.new ≡ item ∷ self.old) }
        ensures err { OnErr result (self.new ≡ self.old) }
    {
        self.items.push(item)?;
        Ok(())
    }
}
