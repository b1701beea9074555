//! What stays while a unit's text is gone through.
use cx_shelf::IndexedShelf;
use cx_table::NameKey;
use std::alloc::Global;

/// What stays while a unit's text is gone through.
#[derive(Clone, Copy)]
pub(crate) struct Context<'a> {
    pub alloc: Global,
    pub key: NameKey,
    pub shelf: &'a IndexedShelf,
}
