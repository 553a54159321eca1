// The automaton: one step, and the run.
#![tactic(auto)]

pub mod ends;
mod marks;
pub mod meter;
pub mod start;

ghost use Rattle.std.specs.Prelude.{◌≡◌, List, ◌∷◌, ℕ};
ghost use Rattle.rules.specs.declared.kinds.Passed.{Passed};
ghost use Rattle.rules.specs.paper.States.{State, Item, Entry, Environment, Store};
ghost use Rattle.rules.specs.paper.Rules.{Rule, Effect, Table};
ghost use Rattle.rules.specs.claims.History.{History};
ghost use Rattle.rules.proofs.running.Continuation.{Invariant};
ghost use Rattle.rules.specs.paper.Run.{run, judge};
ghost use Rattle.rules.specs.paper.HighMarks.{high_marks};
ghost use Rattle.machine.specs.Steps.{Holds};
ghost use Rattle.automaton.specs.Runs.{Enabled, StepsFrom, RunAnswer};

use crate::marks::mark_rule;
use crate::meter::{Record, advance, first_marks};
use commands::declarations::{close, declaration_rule, reference};
use commands::nodes::command_rule;
use expressions::nodes::expression_rule;
use machine::Machine;
use machine::layout::{MARK, TOP_CONTROL};
use reader::node_kind;
use rules::kinds::Kind;
use rules::refusals::Reason;

// How a run ends: that control is empty, or the reason for which a step is withheld; the steps made, and the run's record, the machine in its
// last state.
#[derive(Clone, Copy)]
pub struct Ending {
    pub outcome: Result<(), Reason>,
    pub steps: u64,
    pub record: Record,
}

// One step: the item on top of control is taken off, and its rule is applied.
fn step(work: &mut [u64], mut m: Machine) -> Result<Machine, Reason>
    requires { Enabled work.old m }
    ensures { StepsFrom work.old m result work.new }
{
    let height = m.control;
    let word = work[TOP_CONTROL + height];
    m.control = height - 1;
    if MARK <= word {
        return mark_rule(work, m, word);
    }
    let node = word as usize;
    match node_kind(work, node) {
        Kind::Expression(which) => expression_rule(work, m, node, which),
        Kind::Command(which) => command_rule(work, m, node, which),
        Kind::Declaration(which) => declaration_rule(work, m, node, which),
        Kind::Ref => reference(work, m, node),
        Kind::Abs => close(work, m, node),
        Kind::Formal => unreachable!(),
    }
}

// The run: steps until control is empty, a step is withheld, or the budget is used up. Each step is lent the meter.
pub fn run(work: &mut [u64], first: Machine, budget: u64) -> Ending
    requires { (a : Passed) × (r : ℕ) × (σ : State) × (h : History) × Holds work.old first σ × Invariant a r σ h }
    ensures { (a : Passed) (r : ℕ) (σ : State) (h : History) → Holds work.old first σ → Invariant a r σ h → RunAnswer (high_marks budget σ) (run budget 0 σ) result work.old work.new }
{
    let mut reached = Record {
        machine: first,
        marks: first_marks(first),
    };
    // The steps are counted by hand: a step of the factorial loop takes 3.8 ns so, and 4.8 with a `for` over the budget.
    let mut steps = 0;
    let outcome = loop {
        if reached.machine.control == 0 {
            break Ok(());
        }
        if steps == budget {
            break Err(Reason::Steps);
        }
        let made = advance(work, reached);
        match made.stepped {
            Ok(next) => {
                reached = Record {
                    machine: next,
                    marks: made.marks,
                };
                steps = steps + 1;
            }
            Err(reason) => {
                break Err(reason);
            }
        }
    };
    Ending {
        outcome,
        steps,
        record: reached,
    }
}
