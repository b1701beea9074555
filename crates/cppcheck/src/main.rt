//! The command `cppcheck`: hands its words, the real files and the real streams to `run`.
#![tactic(auto)]

use arguments::{Arguments, read_arguments};
use cx_base::{Bytes, DiskFiles, Lost, StdSink, write_whole};
use cx_options::are_in_bounds;
use cx_run::run;
use std::process::ExitCode;

mod arguments;

/// The status where memory runs out before there is anything to tell.
const NO_MEMORY: u8 = 4;

// Tells of an argument that is not text, and answers the status to end with.
fn refuse(rt: &HostRuntime, text: &Bytes) -> u8 {
    let mut err = StdSink::new(rt.stderr());
    match write_whole(&mut err, text.as_slice()) {
        Ok(()) => 1,
        Err(Lost::Failed) => 3,
        Err(Lost::NoMemory) => NO_MEMORY,
    }
}

fn status(rt: &HostRuntime) -> u8 {
    let alloc = rt.alloc();
    let words = match read_arguments(rt, alloc) {
        Ok(Arguments::Words(words)) => words,
        Ok(Arguments::Refused(text)) => return refuse(rt, &text),
        Err(_) => return NO_MEMORY,
    };
    if !are_in_bounds(words.as_slice()) {
        return NO_MEMORY;
    }
    let Ok(handle) = rt.clone() else {
        return NO_MEMORY;
    };
    let mut files = DiskFiles::new(handle);
    let mut out = StdSink::new(rt.stdout());
    let mut err = StdSink::new(rt.stderr());
    run(alloc, words.as_slice(), &mut files, &mut out, &mut err).status
}

fn main(rt: HostRuntime) -> ExitCode {
    ExitCode::from(status(&rt))
}
