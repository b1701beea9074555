//! The preprocessor of C (ISO/IEC 9899:2011, 6.10).
#![tactic(auto)]

pub use chosen::Chosen;
pub use config::Config;
pub use fault::PreFault;
pub use laws::{
    closed_guards_give_nothing, groups_after_the_chosen_change_nothing, marks_stay, once_is_enough,
    once_is_marked, one_answer, one_choice, one_outcome, some_answer, some_outcome,
    text_is_its_expansion, unchosen_groups_change_nothing,
};
pub use unit::preprocess;

mod chosen;
mod config;
mod context;
mod fault;
mod files;
mod laws;
mod stage;
#[cfg(test)]
mod start_tests;
mod starts;
mod stop;
mod unit;
#[cfg(test)]
mod unit_tests;
