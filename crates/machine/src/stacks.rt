// What several rules do alike: a value more, or some entries more on control, each with the limits that it can reach.
ghost use Rattle.std.specs.Prelude.{◌≡◌, ◌+◌, ◌≤◌, [], ◌∷◌, ◌++◌, reverse};
ghost use Rattle.rules.specs.paper.Limits.{most_control_entries};
ghost use Rattle.machine.specs.Room.{reason_of_room};
ghost use Rattle.machine.specs.Regions.{regions, Fits, with_controls};
ghost use Rattle.machine.specs.Steps.{Puts, Pushes, Enters};

use crate::Machine;
use crate::layout::{MOST_BINDINGS, MOST_CONTROL_ENTRIES, MOST_VALUE_ENTRIES};
use crate::memory::{put_control, put_value};
use rules::refusals::Reason;

// The reason for which a step that leaves so many live bindings and so many entries on the stacks is withheld; none where there is room for
// them. Which of several reasons is named stands here alone.
pub fn reason_of_room(bindings: usize, values: usize, control: usize) -> Option<Reason>
    ensures { result ≡ reason_of_room bindings values control }
{
    if MOST_BINDINGS < bindings {
        return Some(Reason::Bindings);
    }
    if MOST_CONTROL_ENTRIES < control {
        return Some(Reason::ControlEntries);
    }
    if MOST_VALUE_ENTRIES < values {
        return Some(Reason::ValueEntries);
    }
    None
}

// A value or a closure goes on the value stack.
pub fn push(work: &mut [u64], m: Machine, label: u64, payload: u64) -> Result<Machine, Reason>
    requires { Fits work.old m }
    ensures { Pushes work.old m label payload result work.new }
{
    if m.values == MOST_VALUE_ENTRIES {
        return Err(Reason::ValueEntries);
    }
    Ok(put_value(work, m, label, payload))
}

// Some entries, from the lowest to the top one, go on control, which has room for them.
#[inline(always)]
pub fn put_all<const N: usize>(work: &mut [u64], m: Machine, items: [u64; N]) -> Machine
    requires fits { Fits work.old m }
    requires room { m.control + N ≤ most_control_entries }
    ensures fits { Fits work.new result }
    ensures m_after { regions work.new result ≡ with_controls (reverse items.entry ++ (regions work.old m).control) (regions work.old m) }
{
    let mut after = m;
    for item in items {
        after = put_control(work, after, item);
    }
    after
}

// Some entries, from the lowest to the top one, go on control.
#[inline(always)]
pub fn put_items<const N: usize>(
    work: &mut [u64],
    m: Machine,
    items: [u64; N],
) -> Result<Machine, Reason>
    requires { Fits work.old m }
    ensures { Puts work.old m (reverse items.entry) result work.new }
{
    if MOST_CONTROL_ENTRIES - m.control < N {
        return Err(Reason::ControlEntries);
    }
    Ok(put_all(work, m, items))
}

// A name or a node goes on the value stack and two entries on control: Assign, Loop, Cond, Bind.
pub fn enter(
    work: &mut [u64],
    m: Machine,
    payload: u64,
    below: u64,
    top: u64,
) -> Result<Machine, Reason>
    requires { Fits work.old m }
    ensures { Enters work.old m payload (top ∷ below ∷ []) result work.new }
{
    if let Some(reason) = reason_of_room(m.bindings, m.values + 1, m.control + 2) {
        return Err(reason);
    }
    let under = put_value(work, m, 0, payload);
    Ok(put_all(work, under, [below, top]))
}
