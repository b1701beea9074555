//! The whole checker as one call: it asks the files, decides what to tell, and writes it.

#![tactic(auto)]

pub use laws::{one_report, some_report};
pub use limits::RunLimits;
pub use report::{Cause, Report, ReportPiece, SinkName};
pub use run_all::{Ended, run, run_within};

mod checked;
mod enabled;
mod keys;
mod laws;
mod limits;
mod pieces;
mod refusals;
mod report;
mod run_all;
mod teller;
mod writing;
