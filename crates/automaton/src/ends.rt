// What is taken from the state in which a run ends: the registers, and the value that is left.
ghost use Rattle.std.specs.Prelude.{◌≤◌, length};
ghost use Rattle.rules.specs.paper.Limits.{most_registers, work_words};
ghost use Rattle.automaton.specs.Starts.{RegistersTaken, ValueLeft, ValueTaken};

use machine::Machine;
use machine::layout::{CELL_PAYLOADS, TOP_PAYLOAD};

// The registers are the contents of the first cells, taken one by one: `copy_from_slice` would ask the C host for `memmove`.
pub fn take_registers(work: &[u64], registers: &mut [u64])
    requires work_words_in_bounds { work_words ≤ length work.now }
    requires registers_len_bound { length registers.old ≤ most_registers }
    ensures { RegistersTaken work.now (length registers.old) registers.new }
{
    for (i, register) in registers.iter_mut().enumerate() {
        *register = work[CELL_PAYLOADS + i];
    }
}

// The word of the value on top of the value stack.
pub fn value_left(work: &[u64], m: Machine) -> u64
    requires { ValueLeft work.now m }
    ensures { ValueTaken work.now m result }
{
    let height = m.values;
    work[TOP_PAYLOAD + height]
}
