// What carrying a routine over the registers' limits rests on: names and cells in the work words, and expressions, declarations and calls over them,
// from the reader's answers alone. Where an end leaves the integers or a divisor's range holds 0, the answer is UnsafeArithmetic at that node.
#![tactic(auto)]

pub mod cells;
pub mod declarations;
pub mod expressions;
pub mod functions;
pub mod layout;
pub mod names;

ghost use Rattle.std.specs.Prelude.{◌≡◌, ◌+◌, ◌<◌};
ghost use Rattle.rules.specs.paper.Limits.{most_bindings, most_cells};
ghost use Rattle.carrying.specs.Layout.{row_added, cell_added};

// The names and cells that there are: the pointer of the newest name, the live bindings, which are the rows in use, and the live cells.
#[derive(Clone, Copy, Debug, PartialEq, Eq)]
pub struct Held {
    pub environment: usize,
    pub bindings: usize,
    pub cells: usize,
}

impl Held {
    // With one more row, which is the newest name.
    fn with_row(self) -> Held
        requires { self.bindings < most_bindings }
        ensures { result ≡ row_added self }
    {
        Held {
            environment: self.bindings + 1,
            bindings: self.bindings + 1,
            cells: self.cells,
        }
    }

    // With one more cell.
    fn with_cell(self) -> Held
        requires { self.cells < most_cells }
        ensures { result ≡ cell_added self }
    {
        Held {
            cells: self.cells + 1,
            ..self
        }
    }
}
