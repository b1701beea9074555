//! What every crate of the checker stands on: small types that contracts see as lists, the
//! places of findings, and the outside world as traits with counted faults.
#![tactic(auto)]

pub use answers::{Answer, Entry, Seen, SeenEntry, Stored};
pub use bytes::{Bytes, Text};
pub use define::Define;
pub use disk_files::DiskFiles;
pub use errors::{Lost, NoMemory};
pub use file_calls::{FileCall, FileRequest};
pub use finding::{Finding, Word};
pub use id::{Id, Severity};
pub use list::{Duplicate, List};
pub use memory_files::{MemoryFiles, can_stand};
pub use memory_sink::MemorySink;
pub use outside::{Files, Sink};
pub use path::Path;
pub use place::Place;
pub use shared::SharedList;
pub use simple_form::is_simple;
pub use simple_path::simple;
pub use std_sink::StdSink;
pub use write_all::write_whole;

mod answers;
mod bytes;
mod calls;
mod define;
mod disk_files;
mod errors;
mod file_calls;
mod finding;
mod folders;
mod id;
mod list;
mod members;
mod memory_files;
mod memory_sink;
mod outside;
mod path;
mod place;
mod shared;
mod simple_form;
mod simple_path;
mod std_sink;
mod write_all;
