// The rules of commands and declarations, and of their marks.
#![tactic(auto)]

pub mod choices;
pub mod declarations;
pub mod marks;
pub mod nodes;
