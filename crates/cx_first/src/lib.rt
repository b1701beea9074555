//! The first text: one C function of int declarations, assignments, arithmetic and `return`, with
//! its reader, its evaluator and its runs (ISO/IEC 9899:2011, 6.5 to 6.8).
#![tactic(auto)]

pub use evaluation::{End, Evaluated, Undefined, evaluate};
pub use laws::{one_longest_run, one_tree, runs_go_on, stuck_is_never_passed};
pub use nodes::{Node, node_at, stuck_at_a_node};
pub use reader::read;
pub use runs::{RunEnd, run};
pub use statements::Awaits;
pub use terminals::Terminal;
pub use tree::{Expr, FirstText, Operator, Statement};

mod evaluation;
mod expressions;
mod keywords;
mod laws;
mod names;
mod nodes;
mod number;
mod reader;
mod runs;
mod statements;
mod terminals;
#[cfg(test)]
mod tests;
mod tree;
