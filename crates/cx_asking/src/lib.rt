//! What is asked of the files: lists, folders, sources and what they include.
#![tactic(auto)]

pub use answers::Answers;
pub use asking::ask;
pub use gathering::Gathering;
pub use includes::closure;
pub use limits::Limits;
pub use list_fault::{FileFault, ListFault};
pub use lists::refused_list;
pub use purpose::Purpose;
pub use text_fault::TextFault;
pub use units::all_units;

mod answers;
mod ask_path;
mod asked;
mod asking;
mod candidates;
mod gathering;
mod given;
mod includes;
mod limits;
mod list_fault;
mod lists;
mod members;
mod path_set;
mod purpose;
#[cfg(test)]
mod tests;
mod text_fault;
mod units;
mod walk;
