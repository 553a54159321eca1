// The machine: its scalars, and the stacks, rows and cells that it keeps in the lent work words.
#![tactic(auto)]

pub mod layout;
pub mod lookup;
pub mod memory;
pub mod stacks;

// Where a cell is: not an integer, and nothing is computed with it.
#[derive(Clone, Copy)]
pub struct Location(pub usize);

// The heights of the stacks in the work words and the pointers into them.
#[derive(Clone, Copy)]
pub struct Machine {
    // entries on control and on the value stack
    pub control: usize,
    pub values: usize,
    // the environment, as a pointer to its newest row; 0 is the empty one
    pub environment: usize,
    // the environment with the names of the declaration that ended last
    pub declared: usize,
    // the live cells, and how many there were when the running block was entered
    pub cells: usize,
    pub base: usize,
    // the live bindings
    pub bindings: usize,
}
