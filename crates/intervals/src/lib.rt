// What is carried of a value that is known only within limits, in two words with its sort, and what the operators make of it.
#![tactic(auto)]

mod choices;
mod ends;
pub mod operators;
pub mod values;
