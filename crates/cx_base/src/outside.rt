//! The world outside the checker, as traits: files to read, and sinks to write to.
//!
//! Each has a count of faults. A call that answers `Lost::Failed` raised it, and any other call
//! left it as it was. An object may tell its contents and its calls, and then what it answers is
//! tied to them, and a call that answers `Lost::NoMemory` changes none of them.
ghost use Rattle.std.specs.Prelude.{◌≤◌, length, IfOk, IfSome};
ghost use Rattle.cx_base.specs.Faults.{HasCause};

use crate::answers::Entry;
use crate::bytes::Bytes;
use crate::errors::Lost;
use crate::list::List;
use crate::path::Path;

/// Files and folders that can be read.
pub trait Files {
    ghost use Rattle.cx_base.specs.Outside.{FilesState, ReadTells, ListTells};

    /// What they tell of their contents and calls, where they do, and how many calls failed.
    ghost state: { Self → FilesState };

    /// The first `most` bytes of the file at the path, all of them where it has fewer, and None
    /// where there is no file or the path is a folder.
    fn read(&mut self, path: &Path, most: u64) -> Result<Option<Bytes>, Lost>
        ensures bound { IfOk result (λ got. IfSome got (λ bytes. length bytes ≤ most)) }
        ensures tells { ReadTells (state self.old) (state self.new) path.now most result }
        ensures cause { HasCause (state self.old).faults (state self.new).faults result };

    /// The members of the folder at the path, and None where the path is no folder.
    fn list(&mut self, path: &Path) -> Result<Option<List<Entry>>, Lost>
        ensures tells { ListTells (state self.old) (state self.new) path.now result }
        ensures cause { HasCause (state self.old).faults (state self.new).faults result };
}

/// What takes bytes: a stream of output.
pub trait Sink {
    ghost use Rattle.cx_base.specs.Outside.{SinkState, Takes, WriteAppends};

    /// The bytes that it took, where it tells them, and how many calls failed.
    ghost state: { Self → SinkState };

    /// Takes a front of the bytes and answers its length, which is 0 only where there are none.
    fn write(&mut self, bytes: &[u8]) -> Result<usize, Lost>
        ensures takes { Takes bytes.now result }
        ensures appends { WriteAppends (state self.old) (state self.new) bytes.now result }
        ensures cause { HasCause (state self.old).faults (state self.new).faults result };
}
