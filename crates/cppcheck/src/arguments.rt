//! The arguments of the program.
use cx_base::{Bytes, NoMemory, Path};
use std::alloc::Global;
use std::env::{Env, FillError};

/// The arguments after the program's name.
#[derive(Drop)]
pub(crate) enum Arguments {
    /// Each of them is text.
    Words(Vec<Path>),
    /// The first that is not text is refused, with this line.
    Refused(Bytes),
}

/// How much room an argument is given at first, in bytes.
const FIRST_ROOM: usize = 256;

// The bytes of an argument, and None after the last one.
fn argument(env: &impl Env, alloc: Global, number: usize) -> Result<Option<Vec<u8>>, NoMemory> {
    let mut buffer = vec![in alloc; 0u8; FIRST_ROOM]?;
    for _ in 0..64 {
        match env.arg(number, &mut buffer) {
            Ok(length) => {
                buffer.truncate(length);
                return Ok(Some(buffer));
            }
            Err(FillError::TooLong) => {
                let room = buffer.len().saturating_mul(2);
                buffer.resize(room, 0)?;
            }
            Err(FillError::NotPresent) => return Ok(None),
        }
    }
    Err(NoMemory)
}

// The bytes as text, each one that is not UTF-8 as U+FFFD.
fn push_lossy(text: &mut Bytes, bytes: &[u8]) -> Result<(), NoMemory> {
    let mut rest = bytes;
    while let Err(error) = std::str::from_utf8(rest) {
        let valid = error.valid_up_to();
        text.push_all(&rest[..valid])?;
        text.push_all("\u{FFFD}".as_bytes())?;
        let Some((_, after)) = rest[valid..].split_first() else {
            return Ok(());
        };
        rest = after;
    }
    text.push_all(rest)
}

// What is told of an argument that is not text.
fn refusal(alloc: Global, argument: &[u8]) -> Result<Bytes, NoMemory> {
    let mut text = Bytes::new(alloc);
    text.push_all(b"cppcheck: error: unrecognized command line option: \"")?;
    push_lossy(&mut text, argument)?;
    text.push_all(b"\".\n")?;
    Ok(text)
}

/// Reads the arguments after the program's name.
pub(crate) fn read_arguments(env: &impl Env, alloc: Global) -> Result<Arguments, NoMemory> {
    let mut words = Vec::new(alloc);
    for number in 1..usize::MAX {
        let Some(bytes) = argument(env, alloc, number)? else {
            break;
        };
        match std::str::from_utf8(bytes.as_slice()) {
            Ok(text) => words.push(Path::from_str(alloc, text)?)?,
            Err(_) => return Ok(Arguments::Refused(refusal(alloc, bytes.as_slice())?)),
        }
    }
    Ok(Arguments::Words(words))
}
