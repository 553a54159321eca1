// The meter: the high marks of a run. It is lent to each step, which changes it where it lies in the run's record.
ghost use Rattle.std.specs.Prelude.{◌≡◌};
ghost use Rattle.rules.specs.paper.HighMarks.{no_high_marks};
ghost use Rattle.automaton.specs.Runs.{marks_of, Enabled, StepsFrom};
ghost use Rattle.automaton.specs.Meter.{first_marks, stacks_raised, all_raised, marks_by_word, after_step, Covers, MeteredStep};

use crate::step;
use machine::Machine;
use machine::layout::{MARK, MARK_NUMBERS, TOP_CONTROL};
use reader::kinds;
use rules::refusals::Reason;

// The marks with lower numbers, of the operators, of Not and of Assign, raise nothing.
const FIRST_THAT_RAISES: u64 = kinds::LOOP as u64;

// The most cells, bindings, value entries and control entries over the states that a run has reached.
#[derive(Clone, Copy)]
pub struct HighMarks {
    pub cells: usize,
    pub bindings: usize,
    pub values: usize,
    pub control: usize,
}

// A run's record: the machine in the state that was reached last, and the meter.
#[derive(Clone, Copy)]
pub struct Record {
    pub machine: Machine,
    pub marks: HighMarks,
}

// A step and the marks after it.
#[derive(Clone, Copy)]
pub(crate) struct Metered {
    pub(crate) stepped: Result<Machine, Reason>,
    pub(crate) marks: HighMarks,
}

// The marks of a run's first state.
pub(crate) fn first_marks(m: Machine) -> HighMarks
    ensures { result ≡ first_marks m }
{
    HighMarks {
        cells: m.cells,
        bindings: m.bindings,
        values: m.values,
        control: m.control,
    }
}

// The marks of a call that is refused before a run.
pub fn no_marks() -> HighMarks
    ensures { result ≡ marks_of no_high_marks }
{
    HighMarks {
        cells: 0,
        bindings: 0,
        values: 0,
        control: 0,
    }
}

fn stacks_raised(marks: HighMarks, m: Machine) -> HighMarks
    ensures { result ≡ stacks_raised marks m }
{
    HighMarks {
        cells: marks.cells,
        bindings: marks.bindings,
        values: marks.values.max(m.values),
        control: marks.control.max(m.control),
    }
}

fn all_raised(marks: HighMarks, m: Machine) -> HighMarks
    ensures { result ≡ all_raised marks m }
{
    HighMarks {
        cells: marks.cells.max(m.cells),
        bindings: marks.bindings.max(m.bindings),
        values: marks.values.max(m.values),
        control: marks.control.max(m.control),
    }
}

// The marks after a step, by the word of the item that was taken off control: a node raises the stacks alone.
fn marks_by_word(marks: HighMarks, word: u64, stepped: Result<Machine, Reason>) -> HighMarks
    ensures { result ≡ marks_by_word marks word stepped }
{
    match stepped {
        Ok(next) => {
            if word < MARK {
                return stacks_raised(marks, next);
            }
            if word % MARK_NUMBERS < FIRST_THAT_RAISES {
                return marks;
            }
            all_raised(marks, next)
        }
        Err(_) => marks,
    }
}

// A step, and the marks after it, which cover the state before it.
fn metered_step(work: &mut [u64], m: Machine, marks: HighMarks) -> Metered
    requires { Enabled work.old m × Covers marks m }
    ensures { MeteredStep work.old m marks result work.new }
{
    let height = m.control;
    let word = work[TOP_CONTROL + height];
    let stepped = step(work, m);
    let raised = marks_by_word(marks, word, stepped);
    Metered {
        stepped,
        marks: raised,
    }
}

// One step. The meter is lent to it, and it changes it where it lies.
fn make_step(work: &mut [u64], m: Machine, meter: &mut HighMarks) -> Result<Machine, Reason>
    requires { Enabled work.old m × Covers meter.old m }
    ensures { StepsFrom work.old m result work.new × (meter.new ≡ after_step meter.old result) }
{
    let made = metered_step(work, m, *meter);
    *meter = made.marks;
    made.stepped
}

// The step of a run, which is lent the meter out of the run's record.
pub(crate) fn advance(work: &mut [u64], mut reached: Record) -> Metered
    requires { Enabled work.old reached.machine × Covers reached.marks reached.machine }
    ensures { MeteredStep work.old reached.machine reached.marks result work.new }
{
    let m = reached.machine;
    let stepped = make_step(work, m, &mut reached.marks);
    Metered {
        stepped,
        marks: reached.marks,
    }
}
