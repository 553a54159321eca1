// A Call's mark: the closure's environment with the Formals bound to the actuals, and its block to run.
ghost use Rattle.std.specs.Prelude.{◌≡◌, ℕ, ◌+◌, ◌-◌, ◌≤◌};
ghost use Rattle.rules.specs.paper.States.{call_mark, mark};
ghost use Rattle.rules.specs.paper.Limits.{most_bindings, most_value_entries, most_control_entries};
ghost use Rattle.machine.specs.Regions.{regions, Fits};
ghost use Rattle.machine.specs.Steps.{Applicable, Steps};
ghost use Rattle.frames.specs.Formals.{machine_with_formals, CanBind, Binds, with_frame};

use crate::rows::row_label;
use machine::Machine;
use machine::layout::{
    CARRIED_UNIT, CLOSURE_UNIT, COUNT_UNIT, LEAVE_MARK, NAME_UNIT, ROW_PAYLOADS, TOP_LABEL,
    TOP_PAYLOAD,
};
use machine::lookup::row_of;
use machine::memory::{put_row, put_value};
use machine::stacks::{put_all, reason_of_room};
use reader::{NAMES, operand};
use rules::refusals::Reason;

// A row for each Formal from the first one to the block, with the values on top of the value stack, on the closure's environment.
fn bind_formals(work: &mut [u64], mut m: Machine, first: usize, block: usize) -> Machine
    requires fits { Fits work.old m }
    requires first_bound { m.bindings + (block - first) ≤ most_bindings }
    requires can_bind { CanBind work.old m first block }
    ensures value { result ≡ machine_with_formals (block - first) result.environment m }
    ensures binds { Binds work.old m first block result work.new }
{
    for formal in first..block {
        let height = m.values;
        let label = work[TOP_LABEL + height];
        let payload = work[TOP_PAYLOAD + height];
        let name = operand(work, formal) % NAMES;
        let row = row_label(name as u64, label, m.environment);
        m = put_row(work, m, row, payload);
        m.environment = m.bindings;
        m.values = height - 1;
    }
    m
}

// A call's frame: the caller's cells and environment are saved, and the block goes on control over its second mark.
fn put_frame(
    work: &mut [u64],
    m: Machine,
    base: usize,
    environment: usize,
    below: u64,
    top: u64,
) -> Machine
    requires fits { Fits work.old m }
    requires values_bound { m.values + 2 ≤ most_value_entries }
    requires control_bound { m.control + 2 ≤ most_control_entries }
    ensures fits { Fits work.new result }
    ensures m_after { regions work.new result ≡ with_frame base environment below top (regions work.old m) }
{
    let once = put_value(work, m, 0, base as u64);
    let saved = put_value(work, once, 0, environment as u64);
    put_all(work, saved, [below, top])
}

// Call's: the closure's environment with the Formals bound to the actuals, and its block to run.
pub fn call_mark(work: &mut [u64], mut m: Machine, word: u64) -> Result<Machine, Reason>
    requires { (p x k : ℕ) × Applicable work.old m word (mark (call_mark p x k)) }
    ensures { (p x k : ℕ) → Steps work.old m word (mark (call_mark p x k)) result work.new }
{
    let count = (word / COUNT_UNIT) as usize;
    if let Some(reason) = reason_of_room(m.bindings + count, m.values - count + 2, m.control + 2) {
        return Err(reason);
    }
    let row = row_of(work, m, word / CARRIED_UNIT % NAME_UNIT);
    let closure = work[ROW_PAYLOADS + row];
    let first = (closure % CLOSURE_UNIT) as usize + 1;
    let block = first + count;
    let base = m.base;
    let caller = m.environment;
    let below = LEAVE_MARK + CARRIED_UNIT * m.bindings as u64;
    m.environment = (closure / CLOSURE_UNIT) as usize;
    m.base = m.cells;
    let called = bind_formals(work, m, first, block);
    Ok(put_frame(work, called, base, caller, below, block as u64))
}
