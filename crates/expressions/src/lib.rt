// The rules of expressions, and of the operators' marks.
#![tactic(auto)]

pub mod marks;
pub mod nodes;
