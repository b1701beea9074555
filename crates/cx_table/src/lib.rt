//! Tables of names that no source can steer.
//!
//! A source picks its names, so it could pick names that a hash function with a fixed key takes for
//! one another, and each look-up would go through all of them. A [`NameTable`] hashes its names
//! with SipHash-1-3 under a [`NameKey`], which comes from the bytes of the source itself: who
//! changes a name changes the key. Who knows the source knows its key too, but cannot choose its
//! names by it. That no such source can be found is what is believed of SHA-256 and SipHash; how
//! long a call takes is not proved.
#![tactic(auto)]

pub use key::NameKey;
pub use name_table::NameTable;

mod key;
mod name_table;
#[cfg(test)]
mod tests;
