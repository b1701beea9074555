//! Where the items of a translation unit end (ISO/IEC 9899:2011, 6.9), by brackets alone: so no
//! item that does not read takes tokens of another.
#![tactic(auto)]

pub use cuts::{Cuts, cuts_of};
pub use laws::{nested_have_parts, no_part_is_lost, no_token_is_lost, one_cut, one_list_of_parts};

mod cuts;
mod ends;
mod laws;
mod outline;
#[cfg(test)]
mod tests;
