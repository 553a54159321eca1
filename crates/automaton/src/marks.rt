// Which rule a mark has.
ghost use Rattle.rules.specs.paper.States.{Mark, mark};
ghost use Rattle.machine.specs.Steps.{Applicable, Steps};

use commands::choices::conditional_mark;
use commands::marks::{assign_mark, loop_mark, ref_mark};
use expressions::marks::{not_mark, operator_mark};
use frames::blocks::{extend_mark, leave_mark};
use frames::calls::call_mark;
use frames::declarations::{bind_mark, dseq_extend_mark, dseq_join_mark};
use machine::Machine;
use machine::layout::{DSEQ_EXTEND, DSEQ_JOIN, EXTEND, LEAVE, MARK_NUMBERS};
use reader::kinds;
use rules::refusals::Reason;

// The rule of a mark, by its number: a mark is a word of control, in memory that is lent.
pub fn mark_rule(work: &mut [u64], m: Machine, word: u64) -> Result<Machine, Reason>
    requires { (k : Mark) × Applicable work.old m word (mark k) }
    ensures { (k : Mark) → Steps work.old m word (mark k) result work.new }
{
    let number = (word % MARK_NUMBERS) as usize;
    match number {
        kinds::NOT => not_mark(work, m, word),
        kinds::ASSIGN => assign_mark(work, m, word),
        kinds::LOOP => loop_mark(work, m, word),
        LEAVE => leave_mark(work, m, word),
        EXTEND => extend_mark(work, m, word),
        kinds::CALL => call_mark(work, m, word),
        kinds::COND => conditional_mark(work, m, word),
        kinds::BIND => bind_mark(work, m, word),
        DSEQ_EXTEND => dseq_extend_mark(work, m, word),
        DSEQ_JOIN => dseq_join_mark(work, m, word),
        kinds::REF => ref_mark(work, m, word),
        _ => operator_mark(work, m, word),
    }
}
