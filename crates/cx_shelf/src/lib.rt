//! The files that there are, by their paths: where an include leads to, and the files of a unit
//! (ISO/IEC 9899:2011, 6.10.2).
#![tactic(auto)]

pub use closures::closure;
pub use cx_directive::IncludeName;
pub use files::{path_of, pieces_of};
pub use include::includes_of;
pub use indexed::IndexedShelf;
pub use laws::{
    closure_begins_with_its_unit, closure_is_closed, each_file_is_reached, each_file_stands_once,
};
pub use search::{folder_part, found, in_folder};
pub use shelf::{Shelf, Shelved};

#[cfg(test)]
mod closure_tests;
mod closures;
mod files;
mod include;
#[cfg(test)]
mod include_tests;
mod indexed;
mod laws;
mod search;
#[cfg(test)]
mod search_tests;
mod shelf;
#[cfg(test)]
mod shelf_tests;
