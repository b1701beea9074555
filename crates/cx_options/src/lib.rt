//! The options of the command line, or the first word of it that is refused.
#![tactic(auto)]

pub use answer::{ListWord, Options};
pub use bounds::are_in_bounds;
pub use command::options;
pub use fault::{Refusal, WordFault, WordKind};
pub use laws::{
    a_refused_word_stays, configurations_have_one_bound, paths_are_in_order, style_includes_warning,
};

mod answer;
mod bounds;
mod command;
mod enabled;
mod fault;
mod given;
mod laws;
mod name;
mod number;
mod setting;
mod spelling;
#[cfg(test)]
mod tests;
