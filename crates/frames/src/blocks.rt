// A block's marks: the first saves the environment and extends it by the declared names, the second leaves the block.
ghost use Rattle.std.specs.Prelude.{ℕ, ◌+◌, ◌-◌};
ghost use Rattle.rules.specs.paper.States.{extend_mark, leave_mark, mark};
ghost use Rattle.rules.specs.paper.Limits.{names};
ghost use Rattle.machine.specs.Steps.{Applicable, Steps};

use machine::Machine;
use machine::layout::{CARRIED_UNIT, SECOND_PAYLOAD, TOP_PAYLOAD};
use machine::memory::put_value;
use rules::refusals::Reason;

// A block's first: the environment is saved, and the declared names are added to it.
pub fn extend_mark(work: &mut [u64], mut m: Machine, word: u64) -> Result<Machine, Reason>
    requires { Applicable work.old m word (mark extend_mark) }
    ensures { Steps work.old m word (mark extend_mark) result work.new }
{
    let outer = m.environment;
    m.environment = m.declared;
    m.values -= 1;
    Ok(put_value(work, m, 0, outer as u64))
}

// A block's second, and a call's: what was saved is taken back, and the block's own cells are removed.
pub fn leave_mark(work: &mut [u64], mut m: Machine, word: u64) -> Result<Machine, Reason>
    requires { (p n : ℕ) × Applicable work.old m word (mark (leave_mark p n)) }
    ensures { (p n : ℕ) → Steps work.old m word (mark (leave_mark p n)) result work.new }
{
    let height = m.values;
    m.values = height - 2;
    m.environment = work[TOP_PAYLOAD + height] as usize;
    m.cells = m.base;
    m.base = work[SECOND_PAYLOAD + height] as usize;
    m.bindings = (word / CARRIED_UNIT) as usize;
    Ok(m)
}
