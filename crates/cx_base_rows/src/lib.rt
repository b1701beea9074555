//! Worked cases of paths, folders and copies, as tables.
#![tactic(auto)]

#[cfg(test)]
mod tests;
