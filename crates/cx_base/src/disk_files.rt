//! The real files of the system: the trusted edge, which tells no contents.
ghost use Rattle.std.specs.Prelude.{◌≡◌, ◌≤◌, ℕ, length, None, Err, IfOk, IfSome};
ghost use Rattle.cx_base.specs.Faults.{HasCause};
ghost use Rattle.cx_base.specs.Outside.{ReadTells, ListTells};

use crate::answers::Entry;
use crate::bytes::Bytes;
use crate::errors::Lost;
use crate::list::List;
use crate::outside::Files;
use crate::path::Path;
use std::alloc::Global;
use std::fs::{DirEntry, Metadata};
use std::io::{ErrorKind, Read};
use std::os::unix::fs::FileTypeExt;
use std::{fs, io, rt};

/// The files and folders of the system. Each call that fails raises their count.
///
/// A path through a file, a name with a byte 0 and a broken link are as nothing, and so is what
/// goes away between two looks at it. What is neither a folder, a regular file nor a device is not
/// opened: that is a fault, and so is any other failure of the system. A call that a signal
/// interrupted is made again. Names in a folder that are not UTF-8 are passed over.
#[derive(Drop)]
pub struct DiskFiles<R: rt::Files + AllocGlobal + Clone + Drop> {
    rt: R,
    faults: u64,
}

impl<R: rt::Files + AllocGlobal + Clone + Drop> DiskFiles<R> {
    /// The files of the system, of which no call failed yet.
    pub fn new(rt: R) -> DiskFiles<R>
        ensures { ⟦<DiskFiles<R> as Files>⟧.state result ≡ record { told = None; faults = 0 } }
    {
        DiskFiles { rt, faults: 0 }
    }

    // Counts a failure of the system; want of memory is none.
    fn lost(&mut self, error: io::Error) -> Lost
        ensures { HasCause {T = ℕ} self.old.faults self.new.faults (Err result) }
    {
        if error.kind() == ErrorKind::OutOfMemory {
            return Lost::NoMemory;
        }
        self.faults = self.faults.saturating_add(1);
        Lost::Failed
    }
}

// What stands at a path, as far as it can be asked.
#[derive(Clone, Copy, PartialEq, Eq)]
enum Kind {
    Folder,
    // A regular file or a device, of which a read returns.
    File,
    // A FIFO or a socket: the open of a FIFO without a writer would never return.
    Other,
}

fn kind_of(metadata: &Metadata) -> Kind {
    let kind = metadata.file_type();
    if kind.is_dir() {
        Kind::Folder
    } else if kind.is_file() || kind.is_char_device() || kind.is_block_device() {
        Kind::File
    } else {
        Kind::Other
    }
}

// What the system gave, and None where nothing stands at the path.
fn present<T>(given: io::Result<T>) -> io::Result<Option<T>> {
    match given {
        Ok(found) => Ok(Some(found)),
        Err(error) => match error.kind() {
            ErrorKind::NotFound | ErrorKind::NotADirectory => Ok(None),
            _ => Err(error),
        },
    }
}

fn kind_at(rt: &impl rt::Files, path: &str) -> io::Result<Option<Kind>> {
    if path.as_bytes().contains(&0) {
        return Ok(None);
    }
    match present(fs::metadata(rt, path))? {
        Some(metadata) => Ok(Some(kind_of(&metadata))),
        None => Ok(None),
    }
}

// Reads once, and again where a signal interrupted the call.
fn read_once(reader: &mut impl Read, buffer: &mut [u8]) -> io::Result<usize>
    ensures { IfOk result (λ n. n ≤ length buffer.old) }
{
    for _ in 0..u64::MAX {
        match reader.read(buffer) {
            Ok(count) => return Ok(count),
            Err(error) => {
                if error.kind() != ErrorKind::Interrupted {
                    return Err(error);
                }
            }
        }
    }
    Err(io::Error::from(ErrorKind::Interrupted))
}

// At most so many bytes from the front of a reader.
fn front_of(alloc: Global, reader: &mut impl Read, most: u64) -> io::Result<Bytes>
    ensures { IfOk result (λ bytes. length bytes ≤ most) }
{
    let mut bytes = Vec::new(alloc);
    let mut buffer = [0u8; 65536];
    for _ in 0..u64::MAX {
        let room = (most as usize - bytes.len()).min(buffer.len());
        let count = read_once(reader, &mut buffer[..room])?;
        if count == 0 {
            break;
        }
        bytes.extend_from_slice(&buffer[..count])?;
    }
    Ok(Bytes::from_vec(bytes))
}

fn read_file<R: rt::Files + AllocGlobal + Clone>(
    rt: &R,
    path: &str,
    most: u64,
) -> io::Result<Option<Bytes>>
    ensures { IfOk result (λ got. IfSome got (λ bytes. length bytes ≤ most)) }
{
    match kind_at(rt, path)? {
        Some(Kind::File) => {}
        Some(Kind::Other) => return Err(io::Error::from(ErrorKind::Unsupported)),
        Some(Kind::Folder) | None => return Ok(None),
    }
    let Some(mut file) = present(fs::open(rt, path))? else {
        return Ok(None);
    };
    let bytes = front_of(rt.alloc(), &mut file, most)?;
    Ok(Some(bytes))
}

// A member of a folder, and None where its name is no text.
fn member<R: rt::Files + AllocGlobal + Clone>(
    rt: &R,
    found: io::Result<DirEntry<R>>,
) -> io::Result<Option<Entry>> {
    let member = match found {
        Ok(member) => member,
        Err(error) if error.kind() == ErrorKind::InvalidFilename => return Ok(None),
        Err(error) => return Err(error),
    };
    let folder = matches!(kind_at(rt, member.path().as_str()), Ok(Some(Kind::Folder)));
    match Path::from_str(rt.alloc(), member.file_name()) {
        Ok(name) => Ok(Some(Entry { name, folder })),
        Err(_) => Err(io::Error::from(ErrorKind::OutOfMemory)),
    }
}

fn read_folder<R: rt::Files + AllocGlobal + Clone>(
    rt: &R,
    path: &str,
) -> io::Result<Option<List<Entry>>> {
    if kind_at(rt, path)? != Some(Kind::Folder) {
        return Ok(None);
    }
    let Some(members) = present(fs::read_dir(rt, path))? else {
        return Ok(None);
    };
    let mut entries = Vec::new(rt.alloc());
    for found in members {
        if let Some(entry) = member(rt, found)? {
            entries.push(entry)?;
        }
    }
    Ok(Some(List::from_vec(entries)))
}

impl<R: rt::Files + AllocGlobal + Clone + Drop> Files for DiskFiles<R> {
    ghost state = { λ files. record { told = None; faults = files.faults } };

    fn read(&mut self, path: &Path, most: u64) -> Result<Option<Bytes>, Lost> {
        match read_file(&self.rt, path.as_str(), most) {
            Ok(front) => Ok(front),
            Err(error) => Err(self.lost(error)),
        }
    }

    fn list(&mut self, path: &Path) -> Result<Option<List<Entry>>, Lost> {
        match read_folder(&self.rt, path.as_str()) {
            Ok(members) => Ok(members),
            Err(error) => Err(self.lost(error)),
        }
    }
}
