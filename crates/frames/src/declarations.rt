// The marks of declarations: Bind makes a row for its name; a DSeq lets its second declaration see the names of the first, and has nothing
// left to join.
ghost use Rattle.std.specs.Prelude.{◌+◌, ◌-◌};
ghost use Rattle.rules.specs.paper.States.{bind_mark, dseq_extend_mark, dseq_join_mark, mark};
ghost use Rattle.machine.specs.Steps.{Applicable, Steps};

use crate::rows::row_label;
use machine::Machine;
use machine::layout::{
    MOST_BINDINGS, MOST_VALUE_ENTRIES, SECOND_PAYLOAD, THIRD_PAYLOAD, TOP_LABEL, TOP_PAYLOAD,
};
use machine::memory::{put_row, put_value};
use rules::refusals::Reason;

// Bind's: a row for the name, linked to the environment.
pub fn bind_mark(work: &mut [u64], m: Machine, word: u64) -> Result<Machine, Reason>
    requires { Applicable work.old m word (mark bind_mark) }
    ensures { Steps work.old m word (mark bind_mark) result work.new }
{
    if m.bindings == MOST_BINDINGS {
        return Err(Reason::Bindings);
    }
    let height = m.values;
    let label = work[TOP_LABEL + height];
    let payload = work[TOP_PAYLOAD + height];
    let name = work[SECOND_PAYLOAD + height];
    let row = row_label(name, label, m.environment);
    let mut next = put_row(work, m, row, payload);
    next.declared = next.bindings;
    next.values = height - 1;
    Ok(next)
}

// A DSeq's first: the environment is kept under the declared names, which are added to it.
pub fn dseq_extend_mark(work: &mut [u64], mut m: Machine, word: u64) -> Result<Machine, Reason>
    requires { Applicable work.old m word (mark dseq_extend_mark) }
    ensures { Steps work.old m word (mark dseq_extend_mark) result work.new }
{
    if m.values == MOST_VALUE_ENTRIES {
        return Err(Reason::ValueEntries);
    }
    let outer = m.environment;
    m.environment = m.declared;
    m.values -= 1;
    let kept = put_value(work, m, 0, outer as u64);
    Ok(put_value(work, kept, 0, m.declared as u64))
}

// A DSeq's second: the second declaration's rows stand on the first's already, so the environment that was kept is taken back and the
// names of both are one entry.
pub fn dseq_join_mark(work: &mut [u64], mut m: Machine, word: u64) -> Result<Machine, Reason>
    requires { Applicable work.old m word (mark dseq_join_mark) }
    ensures { Steps work.old m word (mark dseq_join_mark) result work.new }
{
    let height = m.values;
    m.values = height - 2;
    m.environment = work[THIRD_PAYLOAD + height] as usize;
    Ok(m)
}
