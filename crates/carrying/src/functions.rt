// A Call up to its function's Blk: the Formals bound to the actuals, on the names that the function was bound among.
ghost use Rattle.std.specs.Prelude.{◌+◌, ◌≤◌, length};
ghost use Rattle.rules.specs.paper.Limits.{most_cells};
ghost use Rattle.carrying.specs.Layout.{regions_end};
ghost use Rattle.carrying.specs.Frames.{Keeps, KeepsCells};
ghost use Rattle.carrying.specs.Answers.{SomeActuals, SomeFormals, SomeCall, ActualsCarried, FormalsNamed, CallCarried};

use crate::Held;
use crate::expressions::expression;
use crate::names::{find, put_row, row_below, row_value};
use reader::{NAMES, end, operand};
use rules::refusals::Refused;

// What a Call comes to before its function's Blk: the names and cells that the Blk finds, and its node.
#[derive(Clone, Copy, Debug, PartialEq, Eq)]
pub struct Entered {
    pub held: Held,
    pub block: usize,
}

// So many actuals from a node on, last to first, each in its row. The rows get their names when the function is known. An actual's place is known from
// the one before it, so the way to the last is gone by calls. Where there are none, nothing is called.
#[cycle(actuals_first_actual)]
#[inline(always)]
fn actuals(
    work: &mut [u64],
    environment: usize,
    node: usize,
    left: usize,
    row: usize,
) -> Result<(), Refused>
    requires regions_end_in_bounds { regions_end ≤ length work.old }
    requires some_actuals { SomeActuals work.old environment node left row }
    ensures actuals_carried { ActualsCarried work.old work.new environment node left row result }
    ensures keeps { Keeps work.old work.new row most_cells }
    ensures keeps_cells { KeepsCells work.old work.new most_cells }
{
    if left == 0 {
        Ok(())
    } else {
        first_actual(work, environment, node, left, row)
    }
}

// The same of at least one: the later ones, and then the first. A `match` stands where `?` would copy the result byte by byte.
#[cycle(actuals_first_actual)]
fn first_actual(
    work: &mut [u64],
    environment: usize,
    node: usize,
    left: usize,
    row: usize,
) -> Result<(), Refused>
    requires regions_end_in_bounds { regions_end ≤ length work.old }
    requires le_left { 1 ≤ left }
    requires some_actuals { SomeActuals work.old environment node left row }
    ensures actuals_carried { ActualsCarried work.old work.new environment node left row result }
    ensures keeps { Keeps work.old work.new row most_cells }
    ensures keeps_cells { KeepsCells work.old work.new most_cells }
{
    let next = end(work, node);
    actuals(work, environment, next, left - 1, row + 1)?;
    match expression(work, environment, node) {
        Ok(value) => {
            put_row(work, row, 0, 0, value);
            Ok(())
        }
        Err(refused) => Err(refused),
    }
}

// So many Formals from a node on, each the name of its actual's row; the first row stands on the one at the pointer below. The answer is the pointer
// of the newest.
fn formals(work: &mut [u64], formal: usize, count: usize, row: usize, below: usize) -> usize
    requires regions_end_in_bounds { regions_end ≤ length work.old }
    requires some_formals { SomeFormals work.old formal count row below }
    ensures formals_named { FormalsNamed work.old work.new formal count row below result }
    ensures upper_bound { result ≤ row + count }
    ensures keeps { Keeps work.old work.new row most_cells }
    ensures keeps_cells { KeepsCells work.old work.new most_cells }
{
    let mut newest = below;
    for at in 0..count {
        let value = row_value(work, row + at + 1);
        let word = operand(work, formal + at);
        put_row(work, row + at, word % NAMES, newest, value);
        newest = row + at + 1;
    }
    newest
}

// The Call at a node.
pub fn enter(work: &mut [u64], held: Held, node: usize) -> Result<Entered, Refused>
    requires regions_end_in_bounds { regions_end ≤ length work.old }
    requires some_call { SomeCall work.old held node }
    ensures call_carried { CallCarried work.old work.new held node result }
    ensures keeps { Keeps work.old work.new held.bindings most_cells }
    ensures keeps_cells { KeepsCells work.old work.new most_cells }
{
    let word = operand(work, node);
    let count = word / NAMES;
    let row = held.bindings;
    actuals(work, held.environment, node + 1, count, row)?;
    let Some(function) = find(work, held.environment, word % NAMES) else {
        unreachable!();
    };
    let place = row_value(work, function).low as usize;
    let below = row_below(work, function);
    let environment = formals(work, place + 1, count, row, below);
    Ok(Entered {
        held: Held {
            environment,
            bindings: row + count,
            cells: held.cells,
        },
        block: place + 1 + count,
    })
}
