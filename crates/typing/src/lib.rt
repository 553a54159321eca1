// Scope and types of expressions: names in rows of the work words, the judgements on codes, and the code of an expression.
#![tactic(auto)]

pub mod codes;
pub mod expressions;
pub mod scope;
