// The rules of the Π IR routine engine as definitions, and the theorems about them: the definitions and claims stand in specs/, the proofs in proofs/.
// The crates above cite these definitions in their contracts. The code here is what they are about: why an image, a call or a step is refused.
#![tactic(auto)]

pub mod kinds;
pub mod refusals;
