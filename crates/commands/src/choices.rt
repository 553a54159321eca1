// The rules of Cond and of its mark.
ghost use Rattle.rules.specs.paper.Tree.{Expression, Command, Cond};
ghost use Rattle.rules.specs.paper.States.{command, conditional_mark, mark};
ghost use Rattle.machine.specs.Steps.{Applicable, Steps};

use machine::Machine;
use machine::layout::{COND_MARK, SECOND_PAYLOAD, TOP_PAYLOAD};
use machine::memory::put_control;
use machine::stacks::enter;
use reader::end;
use rules::refusals::Reason;

// Cond: itself, the test, the mark.
pub(crate) fn conditional(work: &mut [u64], m: Machine, node: usize) -> Result<Machine, Reason>
    requires { (e : Expression) × (c₁ c₂ : Command) × Applicable work.old m node (command (Cond node e c₁ c₂)) }
    ensures { (e : Expression) (c₁ c₂ : Command) → Steps work.old m node (command (Cond node e c₁ c₂)) result work.new }
{
    enter(work, m, node as u64, COND_MARK, node as u64 + 1)
}

// Cond's mark: the first command if the test is true, else the second. It takes the mark's own place on control.
pub fn conditional_mark(work: &mut [u64], mut m: Machine, word: u64) -> Result<Machine, Reason>
    requires { Applicable work.old m word (mark conditional_mark) }
    ensures { Steps work.old m word (mark conditional_mark) result work.new }
{
    let height = m.values;
    let truth = work[TOP_PAYLOAD + height];
    let node = work[SECOND_PAYLOAD + height];
    m.values = height - 2;
    let first = end(work, node as usize + 1);
    let taken = if truth != 0 { first } else { end(work, first) };
    Ok(put_control(work, m, taken as u64))
}
