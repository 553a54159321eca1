// The operators on carried values, and the wider of two values.
ghost use Rattle.std.specs.Prelude.{◌≡◌, ℤ, Bool};
ghost use Rattle.std.proofs.Math.Option.{some};
ghost use Rattle.rules.specs.paper.Kinds.{operator_number};
ghost use Rattle.rules.specs.declared.kinds.Operator.{Operator};
ghost use Rattle.rules.specs.paper.Integers.{combine};
ghost use Rattle.rules.specs.paper.Carried.{Carried, numbers, truths, safe, carry_arithmetic, carry_choice, carry_both_equal, carry_operator, carry_negation, wider};
ghost use Rattle.intervals.specs.Values.{HoldsValue, ExpressedAs, Gives};

use crate::choices::{and, or, same_truths};
use crate::ends::{compared_ends, meet, over_ends, same_number, wider_ends};
use crate::values::{LOCATION, NUMBERS, TRUTHS, Value, truths};
use reader::kinds;
use rules::kinds::{Arithmetic, Logic, Operator, Order};
use rules::refusals::{Refusal, Refused};

// Sum, Sub, Mul and Div.
fn arithmetic(
    operator: Arithmetic,
    node: usize,
    first: Value,
    second: Value,
) -> Result<Value, Refused>
    ensures { (a b c d : ℤ) → HoldsValue first (numbers a b) → HoldsValue second (numbers c d) → ExpressedAs (safe node (carry_arithmetic operator a b c d)) result }
{
    match over_ends(operator, first, second) {
        Some((low, high)) => Ok(Value {
            sort: NUMBERS,
            low,
            high,
        }),
        None => Err(Refused {
            refusal: Refusal::UnsafeArithmetic,
            place: node,
        }),
    }
}

// Eq, of numbers or of truths.
fn equal(first: Value, second: Value) -> Value
    ensures { (v w : Carried) → HoldsValue first v → HoldsValue second w → Gives (carry_both_equal v w) result }
{
    if first.sort == NUMBERS {
        let same = same_number(first, second);
        let may = meet(first, second);
        truths(!same, may)
    } else {
        same_truths(first, second)
    }
}

// And, Or.
fn combined(operator: Logic, first: Value, second: Value) -> Value
    ensures { (f t g u : Bool) → HoldsValue first (truths f t) → HoldsValue second (truths g u) → HoldsValue result (carry_choice (combine operator) f t g u) }
{
    match operator {
        Logic::And => and(first, second),
        Logic::Or => or(first, second),
    }
}

// The operator that has a kind's number.
fn operator_of(which: usize) -> Operator
    ensures { (o : Operator) → which ≡ operator_number o → result ≡ o }
{
    match which {
        kinds::SUM => Operator::Arithmetic(Arithmetic::Sum),
        kinds::SUB => Operator::Arithmetic(Arithmetic::Sub),
        kinds::MUL => Operator::Arithmetic(Arithmetic::Mul),
        kinds::DIV => Operator::Arithmetic(Arithmetic::Div),
        kinds::EQ => Operator::Eq,
        kinds::LT => Operator::Order(Order::Lt),
        kinds::LE => Operator::Order(Order::Le),
        kinds::GT => Operator::Order(Order::Gt),
        kinds::GE => Operator::Order(Order::Ge),
        kinds::AND => Operator::Logic(Logic::And),
        _ => Operator::Logic(Logic::Or),
    }
}

// What an operator at a node makes of two values.
pub fn apply(operator: Operator, node: usize, first: Value, second: Value) -> Result<Value, Refused>
    ensures { (v w : Carried) → HoldsValue first v → HoldsValue second w → ExpressedAs (carry_operator node operator v w) result }
{
    match operator {
        Operator::Arithmetic(operator) => arithmetic(operator, node, first, second),
        Operator::Eq => Ok(equal(first, second)),
        Operator::Order(order) => Ok(compared_ends(order, first, second)),
        Operator::Logic(operator) => Ok(combined(operator, first, second)),
    }
}

// The same of the operator that has a kind's number. It takes any number, as it always has, and asks nothing of it.
pub fn operator(which: usize, node: usize, first: Value, second: Value) -> Result<Value, Refused>
    ensures { (o : Operator) (v w : Carried) → which ≡ operator_number o → HoldsValue first v → HoldsValue second w → ExpressedAs (carry_operator node o v w) result }
{
    apply(operator_of(which), node, first, second)
}

// Not.
pub fn negation(first: Value) -> Value
    ensures { (v : Carried) → HoldsValue first v → Gives (carry_negation v) result }
{
    Value {
        sort: TRUTHS,
        low: first.high,
        high: first.low,
    }
}

// The wider ends of two, or every truth that either has; both have the same location.
pub fn wider(first: Value, second: Value) -> Value
    ensures { (v w x : Carried) → HoldsValue first v → HoldsValue second w → wider v w ≡ some x → HoldsValue result x }
{
    if first.sort == NUMBERS {
        wider_ends(first, second)
    } else if first.sort == LOCATION {
        first
    } else {
        Value {
            sort: TRUTHS,
            low: first.low | second.low,
            high: first.high | second.high,
        }
    }
}
