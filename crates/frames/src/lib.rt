// The marks that make, save and restore environments: those of declarations, blocks and calls.
#![tactic(auto)]

pub mod blocks;
pub mod calls;
pub mod declarations;
mod rows;
