//! Segments of what is ahead in a list.
use cx_base::{SharedList, Text};

/// A segment of what is ahead in a list.
#[derive(Clone, Copy)]
pub(crate) struct Segment {
    /// How many tokens it has.
    pub(crate) tokens: usize,
    /// Whether a comma or a closing bracket stands behind them, as its end.
    pub(crate) is_ended: bool,
}

/// What is found of a call's brackets.
#[derive(Drop)]
pub(crate) enum Cut {
    /// The closing one is not there.
    Unclosed,
    /// The number of arguments does not fit.
    Miscounted,
    /// What the closing bracket hides, how many arguments there are, and whether the variable one
    /// is left out.
    Called {
        hide: SharedList<Text>,
        arguments: usize,
        left_out: bool,
    },
}
