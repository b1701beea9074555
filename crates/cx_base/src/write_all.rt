//! Writing to sinks that take a part at a time.
ghost use Rattle.std.specs.Prelude.{◌≤◌, length, take, ℕ, OnOk, OnErr};
ghost use Rattle.cx_base.specs.Faults.{HasCause};
ghost use Rattle.cx_base.specs.Outside.{Appends};

use crate::errors::Lost;
use crate::outside::Sink;

/// Writes all the bytes, to a sink that may take a few at a time. After a refusal a front of them
/// was written.
pub fn write_whole<S: Sink>(sink: &mut S, bytes: &[u8]) -> Result<(), Lost>
    ensures whole { OnOk result (Appends (S.state sink.old) (S.state sink.new) bytes.now) }
    ensures front { OnErr result ((n : ℕ) × (n ≤ length bytes.now)
        × Appends (S.state sink.old) (S.state sink.new) (take n bytes.now)) }
    ensures cause { HasCause (S.state sink.old).faults (S.state sink.new).faults result }
{
    let mut done = 0;
    while done < bytes.len() {
        done += sink.write(&bytes[done..])?;
    }
    Ok(())
}
