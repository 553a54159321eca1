// The rules of commands.
ghost use Rattle.std.specs.Prelude.{◌≡◌, List, ℕ, get_or};
ghost use Rattle.rules.specs.paper.Kinds.{kind_number};
ghost use Rattle.rules.specs.declared.kinds.Kind.TheVariants.{Command as command_kind};
ghost use Rattle.rules.specs.paper.Tree.{Expression, Command, Assign, Loop, CSeq, block, Call, Blk, Declaration};
ghost use Rattle.rules.specs.paper.States.{command};
ghost use Rattle.reader.specs.Pack.{packed_kind};
ghost use Rattle.machine.specs.Steps.{Applicable, Steps};

use crate::choices::conditional;
use machine::Machine;
use machine::layout::{
    ASSIGN_MARK, CALL_MARK, CARRIED_UNIT, EXTEND_MARK, LEAVE_MARK, LOOP_MARK, MOST_CONTROL_ENTRIES,
};
use machine::memory::{put_control, put_value};
use machine::stacks::{enter, put_all, put_items, reason_of_room};
use reader::{NAMES, end, operand};
use rules::kinds::CommandKind;
use rules::refusals::Reason;

// Assign: its name, the value, the mark.
fn assign(work: &mut [u64], m: Machine, node: usize) -> Result<Machine, Reason>
    requires { (x : ℕ) × (e : Expression) × Applicable work.old m node (command (Assign node x e)) }
    ensures { (x : ℕ) (e : Expression) → Steps work.old m node (command (Assign node x e)) result work.new }
{
    let name = operand(work, node);
    enter(work, m, name as u64, ASSIGN_MARK, node as u64 + 1)
}

// Loop: itself, the test, the mark.
fn repeat(work: &mut [u64], m: Machine, node: usize) -> Result<Machine, Reason>
    requires { (e : Expression) × (c : Command) × Applicable work.old m node (command (Loop node e c)) }
    ensures { (e : Expression) (c : Command) → Steps work.old m node (command (Loop node e c)) result work.new }
{
    enter(work, m, node as u64, LOOP_MARK, node as u64 + 1)
}

// CSeq: both commands.
fn sequence(work: &mut [u64], m: Machine, node: usize) -> Result<Machine, Reason>
    requires { (c₁ c₂ : Command) × Applicable work.old m node (command (CSeq node c₁ c₂)) }
    ensures { (c₁ c₂ : Command) → Steps work.old m node (command (CSeq node c₁ c₂)) result work.new }
{
    let second = end(work, node + 1);
    put_items(work, m, [second as u64, node as u64 + 1])
}

// Blk: the location set, which becomes empty; the declaration, the first mark, the command, the second mark.
fn enter_block(work: &mut [u64], m: Machine, node: usize) -> Result<Machine, Reason>
    requires { (d : Declaration) × (c : Command) × Applicable work.old m node (command (block (Blk node d c))) }
    ensures { (d : Declaration) (c : Command) → Steps work.old m node (command (block (Blk node d c))) result work.new }
{
    if let Some(reason) = reason_of_room(m.bindings, m.values + 1, m.control + 4) {
        return Err(reason);
    }
    let body = end(work, node + 1);
    let mut opened = put_value(work, m, 0, m.base as u64);
    opened.base = opened.cells;
    let leave = LEAVE_MARK + CARRIED_UNIT * opened.bindings as u64;
    Ok(put_all(
        work,
        opened,
        [leave, body as u64, EXTEND_MARK, node as u64 + 1],
    ))
}

// Call: the mark, then the actuals, the last on top.
fn call(work: &mut [u64], m: Machine, node: usize) -> Result<Machine, Reason>
    requires { (x : ℕ) × (es : List Expression) × Applicable work.old m node (command (Call node x es)) }
    ensures { (x : ℕ) (es : List Expression) → Steps work.old m node (command (Call node x es)) result work.new }
{
    let word = operand(work, node);
    let count = word / NAMES;
    if MOST_CONTROL_ENTRIES < m.control + count + 1 {
        return Err(Reason::ControlEntries);
    }
    let mut machine = put_control(work, m, CALL_MARK + CARRIED_UNIT * word as u64);
    let mut at = node + 1;
    for _ in 0..count {
        machine = put_control(work, machine, at as u64);
        at = end(work, at);
    }
    Ok(machine)
}

// The rule of a command, by its kind.
pub fn command_rule(
    work: &mut [u64],
    m: Machine,
    node: usize,
    which: CommandKind,
) -> Result<Machine, Reason>
    requires which_value { kind_number (command_kind which) ≡ packed_kind (get_or work.old node 0) }
    requires applicable { (c : Command) × Applicable work.old m node (command c) }
    ensures { (c : Command) → Steps work.old m node (command c) result work.new }
{
    match which {
        CommandKind::Assign => assign(work, m, node),
        CommandKind::Loop => repeat(work, m, node),
        CommandKind::CSeq => sequence(work, m, node),
        CommandKind::Blk => enter_block(work, m, node),
        CommandKind::Call => call(work, m, node),
        CommandKind::Cond => conditional(work, m, node),
    }
}
