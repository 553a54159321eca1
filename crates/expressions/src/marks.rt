// The rules of the operators' marks.
ghost use Rattle.std.specs.Prelude.{◌≡◌, ◌+◌, Bool};
ghost use Rattle.rules.specs.paper.Kinds.{operator_number};
ghost use Rattle.rules.specs.declared.kinds.Operator.{Operator};
ghost use Rattle.rules.specs.paper.Integers.{combine};
ghost use Rattle.rules.specs.paper.States.{operator_mark, not_mark, mark};
ghost use Rattle.rules.specs.claims.Listing.{truth_word};
ghost use Rattle.machine.specs.Layout.{mark_base};
ghost use Rattle.machine.specs.Steps.{Applicable, Steps};
ghost use Rattle.expressions.specs.Operated.{Operated};

use integers::{compare, compute};
use machine::Machine;
use machine::layout::{
    AND_MARK, EQ_MARK, GT_MARK, LE_MARK, LT_MARK, MARK, MUL_MARK, SECOND_PAYLOAD, SUB_MARK,
    SUM_MARK, TOP_PAYLOAD,
};
use machine::memory::put_value;
use reader::kinds;
use rules::kinds::{Arithmetic, Logic, Operator, Order};
use rules::refusals::Reason;

// Two words that layout.rt names no mark for: a mark is a word of the machine's memory, made up of its kind's number.
const DIV_MARK: u64 = MARK + kinds::DIV as u64;

const GE_MARK: u64 = MARK + kinds::GE as u64;

// The operator that a mark's word names.
fn operator_of(word: u64) -> Operator
    requires { (o : Operator) × (word ≡ mark_base + operator_number o) }
    ensures { word ≡ mark_base + operator_number result }
{
    match word {
        SUM_MARK => Operator::Arithmetic(Arithmetic::Sum),
        SUB_MARK => Operator::Arithmetic(Arithmetic::Sub),
        MUL_MARK => Operator::Arithmetic(Arithmetic::Mul),
        DIV_MARK => Operator::Arithmetic(Arithmetic::Div),
        EQ_MARK => Operator::Eq,
        LT_MARK => Operator::Order(Order::Lt),
        LE_MARK => Operator::Order(Order::Le),
        GT_MARK => Operator::Order(Order::Gt),
        GE_MARK => Operator::Order(Order::Ge),
        AND_MARK => Operator::Logic(Logic::And),
        _ => Operator::Logic(Logic::Or),
    }
}

// And, Or of two truths' words.
fn combined(operator: Logic, first: u64, second: u64) -> u64
    ensures { (a b : Bool) → first ≡ truth_word a → second ≡ truth_word b → result ≡ truth_word (combine operator a b) }
{
    match operator {
        Logic::And => first & second,
        Logic::Or => first | second,
    }
}

// What an operator makes of two operands, each given by its word.
fn operated(operator: Operator, first: u64, second: u64) -> Result<u64, Reason>
    ensures { Operated operator first second result }
{
    match operator {
        Operator::Arithmetic(arithmetic) => compute(arithmetic, first, second),
        Operator::Eq => Ok(u64::from(first == second)),
        Operator::Order(order) => Ok(u64::from(compare(order, first, second))),
        Operator::Logic(logic) => Ok(combined(logic, first, second)),
    }
}

// The mark of an operator: its value, in place of the two operands on top of the value stack.
pub fn operator_mark(work: &mut [u64], mut m: Machine, word: u64) -> Result<Machine, Reason>
    requires { (o : Operator) × (word ≡ mark_base + operator_number o) × Applicable work.old m word (mark (operator_mark o)) }
    ensures { (o : Operator) → word ≡ mark_base + operator_number o → Steps work.old m word (mark (operator_mark o)) result work.new }
{
    let height = m.values;
    let first = work[SECOND_PAYLOAD + height];
    let second = work[TOP_PAYLOAD + height];
    let value = operated(operator_of(word), first, second)?;
    m.values = height - 2;
    Ok(put_value(work, m, 0, value))
}

// Not.
pub fn not_mark(work: &mut [u64], mut m: Machine, word: u64) -> Result<Machine, Reason>
    requires { Applicable work.old m word (mark not_mark) }
    ensures { Steps work.old m word (mark not_mark) result work.new }
{
    let height = m.values;
    let truth = work[TOP_PAYLOAD + height];
    m.values = height - 1;
    Ok(put_value(work, m, 0, 1 - truth))
}
