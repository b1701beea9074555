//! Streams of the system as sinks.
ghost use Rattle.std.specs.Prelude.{◌≡◌};
ghost use Rattle.std.specs.Io.{WritesAtMost};
ghost use Rattle.std.specs.Io.KnownBytes.{WriteAppends};

use crate::errors::Lost;
use crate::outside::Sink;
use std::io;
use std::io::{ErrorKind, Write};

/// A stream of the system. Each call that fails raises its count. It tells the bytes that it took
/// where its writer tells what it holds; the real streams of a program do not.
#[derive(Drop)]
pub struct StdSink<W: Write + Drop> {
    writer: W,
    faults: u64,
}

impl<W: Write + Drop> StdSink<W> {
    /// The stream, of which no call failed yet.
    pub fn new(writer: W) -> StdSink<W>
        ensures { ⟦<StdSink<W> as Sink>⟧.state result
            ≡ record { holds = W.contents writer; faults = 0 } }
    {
        StdSink { writer, faults: 0 }
    }
}

// Writes once, and again where a signal interrupted the call.
fn write_once<W: Write>(writer: &mut W, bytes: &[u8]) -> io::Result<usize>
    ensures bound { WritesAtMost result bytes.now }
    ensures bytes { WriteAppends (W.contents writer.old) (W.contents writer.new) result bytes.now }
{
    for _ in 0..u64::MAX {
        match writer.write(bytes) {
            Ok(count) => return Ok(count),
            Err(error) => {
                if error.kind() != ErrorKind::Interrupted {
                    return Err(error);
                }
            }
        }
    }
    Err(io::Error::from(ErrorKind::Interrupted))
}

impl<W: Write + Drop> Sink for StdSink<W> {
    ghost state = { λ sink. record { holds = W.contents sink.writer; faults = sink.faults } };

    fn write(&mut self, bytes: &[u8]) -> Result<usize, Lost> {
        if bytes.is_empty() {
            return Ok(0);
        }
        match write_once(&mut self.writer, bytes) {
            Ok(count) if count > 0 => Ok(count),
            Err(error) if error.kind() == ErrorKind::OutOfMemory => Err(Lost::NoMemory),
            _ => {
                self.faults = self.faults.saturating_add(1);
                Err(Lost::Failed)
            }
        }
    }
}
