// The state in which a run starts.
ghost use Rattle.std.specs.Prelude.{◌≤◌, length};
ghost use Rattle.rules.specs.paper.Tree.{Root};
ghost use Rattle.rules.specs.paper.Limits.{most_registers, work_words};
ghost use Rattle.reader.specs.Stored.{RootAt};
ghost use Rattle.automaton.specs.Starts.{StartsAt};

use machine::Machine;
use machine::layout::{LABEL_UNIT, POINTER_UNIT};
use machine::memory::{put_cell, put_control, put_row};

// A register's number is its name, and the pointer of the row below it.
const REGISTER_UNIT: u64 = POINTER_UNIT + 1;

// The root of a tree of so many nodes on control, and a cell and a name for each register. With no node control is empty.
pub fn start(work: &mut [u64], registers: &[u64], nodes: usize) -> Machine
    requires work_words_in_bounds { work_words ≤ length work.old }
    requires registers_len_bound { length registers.now ≤ most_registers }
    ensures { (t : Root) → RootAt work.old nodes t → StartsAt t registers.now result work.old work.new }
{
    let mut m = Machine {
        control: 0,
        values: 0,
        environment: 0,
        declared: 0,
        cells: 0,
        base: 0,
        bindings: 0,
    };
    for (i, register) in registers.iter().enumerate() {
        let named = put_row(work, m, LABEL_UNIT + REGISTER_UNIT * i as u64, i as u64);
        m = put_cell(work, named, 0, *register);
    }
    let count = registers.len();
    let ready = Machine {
        control: 0,
        values: 0,
        environment: count,
        declared: count,
        cells: count,
        base: count,
        bindings: count,
    };
    if nodes == 0 {
        return ready;
    }
    put_control(work, ready, 0)
}
