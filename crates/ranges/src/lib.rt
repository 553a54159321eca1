// Registers known only within limits: a routine's tree is carried over the lowest and highest start of each register, from the reader's answers
// alone.
#![tactic(auto)]

mod commands;
pub mod registers;

ghost use Rattle.std.specs.Prelude.{◌≡◌, ◌≤◌, length};
ghost use Rattle.rules.specs.paper.Limits.{most_registers};
ghost use Rattle.carrying.specs.Layout.{regions_end};
ghost use Rattle.carrying.specs.Frames.{Keeps};
ghost use Rattle.ranges.specs.Routine.{SomeRoot, RootCarried, SomeRoutine, RoutineCarried};

use crate::commands::command;
use crate::registers::{start, take_ends};
use carrying::Held;
use carrying::expressions::expression;
use reader::node_kind;
use rules::kinds::Kind;
use rules::refusals::Refused;

// The root of a tree of so many nodes; with no node it is absent, and the cells are left as they are.
fn root(work: &mut [u64], held: Held, nodes: usize) -> Result<(), Refused>
    requires regions_end_in_bounds { regions_end ≤ length work.old }
    requires some_root { SomeRoot work.old held nodes }
    ensures root_carried { RootCarried work.old work.new held nodes result }
    ensures keeps { Keeps work.old work.new held.bindings held.cells }
{
    if nodes == 0 {
        return Ok(());
    }
    match node_kind(work, 0) {
        Kind::Expression(_) => {
            expression(work, held.environment, 0)?;
            Ok(())
        }
        _ => command(work, held, 0),
    }
}

// The tree of so many nodes is carried from the limits in the two lists, as long as there are registers. Where it goes through the ends replace them;
// else the answer is UnsafeArithmetic with its node.
pub fn carry(
    work: &mut [u64],
    lowest: &mut [u64],
    highest: &mut [u64],
    nodes: usize,
) -> Result<(), Refused>
    requires regions_end_in_bounds { regions_end ≤ length work.old }
    requires lowest_len_bound { length lowest.old ≤ most_registers }
    requires highest_len { length highest.old ≡ length lowest.old }
    requires some_routine { SomeRoutine work.old nodes lowest.old highest.old }
    ensures routine_carried { RoutineCarried work.old nodes lowest.old highest.old lowest.new highest.new result }
    ensures keeps { Keeps work.old work.new 0 0 }
{
    let held = start(work, lowest, highest);
    root(work, held, nodes)?;
    take_ends(work, lowest, highest);
    Ok(())
}
