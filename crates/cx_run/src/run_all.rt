//! The top call.
ghost use Rattle.std.specs.Prelude.{◌≡◌, ◌<◌, ◌≤◌, [], Err, IfOk, IsTrue, Ok, length};
ghost use Rattle.cx_lex.specs.Lines.{place_limit};
ghost use Rattle.cx_options.specs.Command.{command};
ghost use Rattle.cx_options.specs.Limits.{are_in_bounds};
ghost use Rattle.cx_run.specs.declared.limits.RunLimits.{RunLimits as run_limits};
ghost use Rattle.cx_run.specs.Limits.{limits_of_command};
ghost use Rattle.cx_run.specs.Reports.{IsReport};
ghost use Rattle.cx_run.specs.Run.{IsRun};
ghost use Rattle.cx_run.specs.Written.{HasFaultsOf, IsWritten, sinks};

use crate::checked::report_of;
use crate::keys::key_of_words;
use crate::limits::{RunLimits, limits_of_command};
use crate::refusals::word_report;
use crate::report::{Cause, Report};
use crate::writing::write_pieces;
use cx_asking::ask;
use cx_base::{Files, List, Lost, NoMemory, Path, Seen, SeenEntry, Sink};
use cx_options::{Options, WordFault, WordKind, options};
use std::alloc::Global;

/// How a run ended.
#[derive(Debug, Drop)]
pub struct Ended {
    /// The status for the program to end with.
    pub status: u8,
    pub cause: Cause,
    /// Each path that was asked, with its answer.
    pub seen: Seen,
}

/// Why a report was not written whole, and the status to end with.
#[derive(Clone, Copy)]
struct End {
    cause: Cause,
    status: u8,
}

/// The end where memory ran out.
const NO_MEMORY: End = End {
    cause: Cause::NoMemory,
    status: 4,
};

/// Writes the report of the words and of what was seen, where memory sufficed for it, and answers
/// how that went.
fn tell<O: Sink, E: Sink>(
    limits: &RunLimits,
    words: &[Path],
    seen: &[SeenEntry],
    report: Result<Report, NoMemory>,
    out: &mut O,
    err: &mut E,
) -> End
    requires { IfOk report (IsReport limits.now words.now seen.now) }
    ensures written { IsWritten limits.now words.now seen.now
        (sinks (O.state out.old) (E.state err.old))
        (sinks (O.state out.new) (E.state err.new)) result.cause result.status }
    ensures faults { HasFaultsOf result.cause
        (sinks (O.state out.old) (E.state err.old))
        (sinks (O.state out.new) (E.state err.new)) }
{
    let _ = limits;
    let _ = words;
    let _ = seen;
    let Ok(report) = report else {
        return NO_MEMORY;
    };
    match write_pieces(report.pieces.as_slice(), out, err) {
        Ok(()) => End {
            cause: report.cause,
            status: report.status,
        },
        Err(stop) => match stop.lost {
            Lost::Failed => End {
                cause: Cause::WriteFault { sink: stop.sink },
                status: 3,
            },
            Lost::NoMemory => NO_MEMORY,
        },
    }
}

/// The report of a refused word.
fn bad_word_report(
    alloc: Global,
    words: &[Path],
    number: u32,
    kind: WordKind,
) -> Result<Report, NoMemory>
    requires bad { command words.now ≡ Err (record { word = number; kind = kind }) }
    requires within { number < length words.now }
    ensures { (limits : run_limits) → IfOk result (IsReport limits words.now []) }
{
    word_report(alloc, number, kind, &words[number as usize])
}

/// Checks what options ask for.
fn run_options<F: Files, O: Sink, E: Sink>(
    alloc: Global,
    limits: &RunLimits,
    words: &[Path],
    options: &Options,
    files: &mut F,
    out: &mut O,
    err: &mut E,
) -> Ended
    requires read { command words.now ≡ Ok options.now }
    requires short { limits.now.asking.read ≤ place_limit }
    ensures { IsRun limits.now words.now (F.state files.old) (F.state files.new)
        (sinks (O.state out.old) (E.state err.old))
        (sinks (O.state out.new) (E.state err.new)) result }
{
    let Ok(key) = key_of_words(alloc, words) else {
        return nothing_done(alloc);
    };
    let Ok(gathering) = ask(alloc, key, &limits.asking, options, files) else {
        return nothing_done(alloc);
    };
    let report = report_of(alloc, key, limits, options, &gathering);
    let End { cause, status } = tell(
        limits,
        words,
        gathering.answers.as_slice(),
        report,
        out,
        err,
    );
    Ended {
        status,
        cause,
        seen: gathering.answers.into_seen(),
    }
}

/// The end where memory ran out before anything was told.
fn nothing_done(alloc: Global) -> Ended
    ensures { result ≡ record { status = 4; cause = Cause.NoMemory; seen = [] } }
{
    Ended {
        status: NO_MEMORY.status,
        cause: NO_MEMORY.cause,
        seen: List::new(alloc),
    }
}

/// `run` with other limits.
pub fn run_within<F: Files, O: Sink, E: Sink>(
    alloc: Global,
    limits: &RunLimits,
    words: &[Path],
    files: &mut F,
    out: &mut O,
    err: &mut E,
) -> Ended
    requires words { IsTrue (are_in_bounds words.now) }
    requires short { limits.now.asking.read ≤ place_limit }
    ensures { IsRun limits.now words.now (F.state files.old) (F.state files.new)
        (sinks (O.state out.old) (E.state err.old))
        (sinks (O.state out.new) (E.state err.new)) result }
{
    match options(alloc, words) {
        Ok(options) => run_options(alloc, limits, words, &options, files, out, err),
        Err(WordFault::Bad { word, kind }) => {
            let report = bad_word_report(alloc, words, word, kind);
            let End { cause, status } = tell(limits, words, &[], report, out, err);
            Ended {
                status,
                cause,
                seen: List::new(alloc),
            }
        }
        Err(WordFault::NoMemory) => nothing_done(alloc),
    }
}

/// Checks what the words of the command line ask for: asks the files, and writes the report of the
/// words and of what was seen to the two sinks.
///
/// The contract is `IsRun`, whose fields say:
///
/// * **asked**: unless memory ran out, `seen` is all that the words ask, each path once and in
///   order: the lists, the paths given with the sources in folders, and what files include.
/// * **answers**: unless memory ran out, each answer is what the files hold, where they tell that,
///   and was got by the calls that give it. A file of 4,194,305 bytes or more is too large, and so
///   is one that takes all bytes kept past 67,108,864.
/// * **reads**: whatever the cause, the files were asked for what the words ask and nothing else;
///   where memory ran out for a front of that. Their count of faults is as it was where no call
///   failed, and else rose by at least as many as failed.
/// * **written**: cause, status and pieces are those of the report of the words and of `seen`, and
///   each sink holds its old bytes and then its pieces. After a `WriteFault`, with status 3, a
///   front of the pieces is written, which ends in a piece for that sink; after `NoMemory`, with
///   status 4, such a front, or nothing.
/// * **nothing**: unless `seen` is all that the words ask, with the answers that the files gave,
///   nothing is written.
/// * **faults**: after a `WriteFault` the count of that sink rose, and that of the other one is as
///   it was; with any other cause both are as they were.
/// * **sound**: for each finding of a division by zero, an overflow or an uninitialized read in a
///   text that a configuration of a checked unit is: no run of it makes the value of the finding's
///   node, and a run comes to its statement. This is a law of every text, which no body can break;
///   that the findings which are written are those of the texts is *written* with *nothing*.
pub fn run<F: Files, O: Sink, E: Sink>(
    alloc: Global,
    words: &[Path],
    files: &mut F,
    out: &mut O,
    err: &mut E,
) -> Ended
    requires { IsTrue (are_in_bounds words.now) }
    ensures { IsRun limits_of_command words.now (F.state files.old) (F.state files.new)
        (sinks (O.state out.old) (E.state err.old))
        (sinks (O.state out.new) (E.state err.new)) result }
{
    run_within(alloc, &limits_of_command(), words, files, out, err)
}
