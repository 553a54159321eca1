// The rules of the marks of Assign, Loop and Ref.
ghost use Rattle.rules.specs.paper.States.{assign_mark, loop_mark, ref_mark, mark};
ghost use Rattle.machine.specs.Steps.{Applicable, Steps};

use machine::layout::{MOST_CELLS, ROW_PAYLOADS, SECOND_PAYLOAD, TOP_LABEL, TOP_PAYLOAD};
use machine::lookup::row_of;
use machine::memory::{put_cell, put_value, set_cell};
use machine::stacks::put_items;
use machine::{Location, Machine};
use reader::end;
use rules::refusals::Reason;

// Assign's: the value goes to the cell that the name is bound to.
pub fn assign_mark(work: &mut [u64], mut m: Machine, word: u64) -> Result<Machine, Reason>
    requires { Applicable work.old m word (mark assign_mark) }
    ensures { Steps work.old m word (mark assign_mark) result work.new }
{
    let height = m.values;
    let label = work[TOP_LABEL + height];
    let payload = work[TOP_PAYLOAD + height];
    let name = work[SECOND_PAYLOAD + height];
    let row = row_of(work, m, name);
    let bound = work[ROW_PAYLOADS + row];
    m.values = height - 2;
    set_cell(work, m, Location(bound as usize), label, payload);
    Ok(m)
}

// Loop's: if the test is true, the command and the Loop again.
pub fn loop_mark(work: &mut [u64], mut m: Machine, word: u64) -> Result<Machine, Reason>
    requires { Applicable work.old m word (mark loop_mark) }
    ensures { Steps work.old m word (mark loop_mark) result work.new }
{
    let height = m.values;
    let truth = work[TOP_PAYLOAD + height];
    let node = work[SECOND_PAYLOAD + height];
    m.values = height - 2;
    if truth == 0 {
        return Ok(m);
    }
    let body = end(work, node as usize + 1);
    put_items(work, m, [node, body as u64])
}

// Ref's: a cell with the value, its location in L and in the value's place.
pub fn ref_mark(work: &mut [u64], mut m: Machine, word: u64) -> Result<Machine, Reason>
    requires { Applicable work.old m word (mark ref_mark) }
    ensures { Steps work.old m word (mark ref_mark) result work.new }
{
    let cell = m.cells;
    if cell == MOST_CELLS {
        return Err(Reason::Cells);
    }
    let height = m.values;
    let label = work[TOP_LABEL + height];
    let payload = work[TOP_PAYLOAD + height];
    m.values = height - 1;
    let made = put_cell(work, m, label, payload);
    Ok(put_value(work, made, 1, cell as u64))
}
