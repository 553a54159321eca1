// Commands: what they leave in the cells. At a Cond whose test may be both, each command is carried from the cells before it.
ghost use Rattle.std.specs.Prelude.{◌≡◌, ◌≤◌, length, get_or};
ghost use Rattle.rules.specs.paper.Limits.{most_bindings, most_cells};
ghost use Rattle.reader.specs.KindNumbers.{assign_number, cseq_number, blk_number, call_number, conditional_number};
ghost use Rattle.reader.specs.Pack.{packed_kind};
ghost use Rattle.carrying.specs.Layout.{regions_end};
ghost use Rattle.carrying.specs.Frames.{Keeps};
ghost use Rattle.carrying.specs.Answers.{SomeCommand, CommandCarried};
ghost use Rattle.ranges.specs.Commands.{SomeAssign, SomeTested, SomeBoth, AssignCarried, TestedCarried, BothCarried};

use carrying::Held;
use carrying::cells::{Ends, copy, exchange, set_cell, widen};
use carrying::declarations::declaration;
use carrying::expressions::expression;
use carrying::functions::enter;
use carrying::names::{find, row_value};
use intervals::values::Value;
use machine::layout::MOST_CELLS;
use reader::{end, node_kind, operand};
use rules::kinds::{CommandKind, Kind};
use rules::refusals::Refused;

// The cell that the Assign at a node names is set to a value.
fn assign(work: &mut [u64], environment: usize, node: usize, value: Value)
    requires regions_end_in_bounds { regions_end ≤ length work.old }
    requires some_assign { SomeAssign work.old environment node value }
    ensures assign_carried { AssignCarried work.old work.new environment node value }
    ensures keeps { Keeps work.old work.new most_bindings most_cells }
{
    let name = operand(work, node);
    let Some(row) = find(work, environment, name) else {
        unreachable!();
    };
    let at = row_value(work, row).low as usize;
    set_cell(work, at, value.low, value.high);
}

// The command at a node. No Loop is carried. Each kind has a function of its own, which is written out here: so a call makes room only for the results
// of its own kind. Each arm returns by itself: where the arms' answers meet in one place they are copied there.
#[cycle(command_conditional_either)]
pub(crate) fn command(work: &mut [u64], held: Held, node: usize) -> Result<(), Refused>
    requires regions_end_in_bounds { regions_end ≤ length work.old }
    requires some_command { SomeCommand work.old held node }
    ensures command_carried { CommandCarried work.old work.new held node result }
    ensures keeps { Keeps work.old work.new held.bindings held.cells }
{
    let Kind::Command(kind) = node_kind(work, node) else {
        unreachable!();
    };
    match kind {
        CommandKind::CSeq => return sequence(work, held, node),
        CommandKind::Blk => return block(work, held, node),
        CommandKind::Call => return call(work, held, node),
        CommandKind::Assign => return assignment(work, held, node),
        CommandKind::Cond => return choice(work, held, node),
        CommandKind::Loop => unreachable!(),
    }
}

// The CSeq at a node.
#[cycle(command_conditional_either)]
#[inline(always)]
fn sequence(work: &mut [u64], held: Held, node: usize) -> Result<(), Refused>
    requires regions_end_in_bounds { regions_end ≤ length work.old }
    requires kind_is { packed_kind (get_or work.old node 0) ≡ cseq_number }
    requires some_command { SomeCommand work.old held node }
    ensures command_carried { CommandCarried work.old work.new held node result }
    ensures keeps { Keeps work.old work.new held.bindings held.cells }
{
    command(work, held, node + 1)?;
    let after = end(work, node + 1);
    command(work, held, after)
}

// The Blk at a node. What its declaration leaves is lent on as it lies in the answer, with no copy: a `?` would copy it.
#[cycle(command_conditional_either)]
#[inline(always)]
fn block(work: &mut [u64], held: Held, node: usize) -> Result<(), Refused>
    requires regions_end_in_bounds { regions_end ≤ length work.old }
    requires kind_is { packed_kind (get_or work.old node 0) ≡ blk_number }
    requires some_command { SomeCommand work.old held node }
    ensures command_carried { CommandCarried work.old work.new held node result }
    ensures keeps { Keeps work.old work.new held.bindings held.cells }
{
    match declaration(work, held, node + 1) {
        Ok(inner) => {
            let inside = end(work, node + 1);
            return command(work, inner, inside);
        }
        Err(refused) => return Err(refused),
    }
}

// The Call at a node.
#[cycle(command_conditional_either)]
#[inline(always)]
fn call(work: &mut [u64], held: Held, node: usize) -> Result<(), Refused>
    requires regions_end_in_bounds { regions_end ≤ length work.old }
    requires kind_is { packed_kind (get_or work.old node 0) ≡ call_number }
    requires some_command { SomeCommand work.old held node }
    ensures command_carried { CommandCarried work.old work.new held node result }
    ensures keeps { Keeps work.old work.new held.bindings held.cells }
{
    match enter(work, held, node) {
        Ok(entered) => return command(work, entered.held, entered.block),
        Err(refused) => return Err(refused),
    }
}

// The Assign at a node.
#[inline(always)]
fn assignment(work: &mut [u64], held: Held, node: usize) -> Result<(), Refused>
    requires regions_end_in_bounds { regions_end ≤ length work.old }
    requires kind_is { packed_kind (get_or work.old node 0) ≡ assign_number }
    requires some_command { SomeCommand work.old held node }
    ensures command_carried { CommandCarried work.old work.new held node result }
    ensures keeps { Keeps work.old work.new held.bindings held.cells }
{
    let value = expression(work, held.environment, node + 1)?;
    assign(work, held.environment, node, value);
    Ok(())
}

// The Cond at a node.
#[cycle(command_conditional_either)]
#[inline(always)]
fn choice(work: &mut [u64], held: Held, node: usize) -> Result<(), Refused>
    requires regions_end_in_bounds { regions_end ≤ length work.old }
    requires kind_is { packed_kind (get_or work.old node 0) ≡ conditional_number }
    requires some_command { SomeCommand work.old held node }
    ensures command_carried { CommandCarried work.old work.new held node result }
    ensures keeps { Keeps work.old work.new held.bindings held.cells }
{
    let test = expression(work, held.environment, node + 1)?;
    conditional(work, held, node, test)
}

// The Cond at a node, whose test is this.
#[cycle(command_conditional_either)]
fn conditional(work: &mut [u64], held: Held, node: usize, test: Value) -> Result<(), Refused>
    requires regions_end_in_bounds { regions_end ≤ length work.old }
    requires kind_is { packed_kind (get_or work.old node 0) ≡ conditional_number }
    requires some_tested { SomeTested work.old held node test }
    ensures tested_carried { TestedCarried work.old work.new held node test result }
    ensures keeps { Keeps work.old work.new held.bindings held.cells }
{
    let first = end(work, node + 1);
    if test.low == 0 {
        return command(work, held, first);
    }
    if test.high == 0 {
        let second = end(work, first);
        return command(work, held, second);
    }
    either(work, held, node)
}

// The Cond at a node, whose test may be both: the cells before it are kept while the first command is carried, and what that leaves while the second
// is.
#[cycle(command_conditional_either)]
fn either(work: &mut [u64], held: Held, node: usize) -> Result<(), Refused>
    requires regions_end_in_bounds { regions_end ≤ length work.old }
    requires some_both { SomeBoth work.old held node }
    ensures both_carried { BothCarried work.old work.new held node result }
    ensures keeps { Keeps work.old work.new held.bindings held.cells }
{
    let cells = held.cells;
    let mut kept = [Ends { low: 0, high: 0 }; MOST_CELLS];
    let first = end(work, node + 1);
    copy(&mut kept, work, cells);
    command(work, held, first)?;
    exchange(&mut kept, work, cells);
    let second = end(work, first);
    command(work, held, second)?;
    widen(work, &kept, cells);
    Ok(())
}
