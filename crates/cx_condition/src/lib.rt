//! The value of the condition of `#if` and `#elif` (ISO/IEC 9899:2011, 6.10.1), and integer and
//! character constants.
#![tactic(auto)]

pub use character::character_value;
pub use condition::value_of;
pub use digits::Base;
pub use integer::{IntegerConstant, Length, integer_constant};
pub use laws::{
    a_number_is_its_constant, bits_are_of_their_range, choices_have_the_common_type, one_reading,
    skipped_sides_are_left_out,
};
pub use value::Value;

mod arithmetic;
mod bytes;
mod character;
mod condition;
mod digits;
mod frame;
mod integer;
mod laws;
mod operator;
mod part;
#[cfg(test)]
mod tests;
mod value;
