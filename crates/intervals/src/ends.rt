// Numbers by their ends: arithmetic, comparisons, and the wider of two ranges.
ghost use Rattle.std.specs.Prelude.{◌≡◌, not, ◌&&◌, pos};
ghost use Rattle.std.specs.Int.Signed.{lt_z};
ghost use Rattle.rules.specs.paper.Integers.{compute, equal_integers};
ghost use Rattle.rules.specs.paper.Carried.{divisor_may_be_zero, carry_arithmetic, lower, higher};
ghost use Rattle.integers.specs.Words.{integer_of, word_of};
ghost use Rattle.intervals.specs.Values.{span_words, two_results, OrderCarried, numbers_value};

use crate::values::{NUMBERS, Value, truths};
use integers::{compare, compute, less};
use rules::kinds::{Arithmetic, Order};

// The library's `min` and `max` are of the signed type: by two casts there and one back they are no plainer than the two tests here.
#[tactic(auto, using(integers::specs::WordLaws::word_of_integer), unfolding(rules::specs::paper::Carried::lower))]
fn lower(first: u64, second: u64) -> u64
    ensures { result ≡ word_of (lower (integer_of first) (integer_of second)) }
{
    if less(first, second) { first } else { second }
}

#[tactic(auto, using(integers::specs::WordLaws::word_of_integer), unfolding(rules::specs::paper::Carried::higher))]
fn higher(first: u64, second: u64) -> u64
    ensures { result ≡ word_of (higher (integer_of first) (integer_of second)) }
{
    if less(first, second) { second } else { first }
}

// The numbers from the lower of two lowest ends to the higher of two highest.
pub(crate) fn wider_ends(first: Value, second: Value) -> Value
    ensures { result ≡ numbers_value (lower (integer_of first.low) (integer_of second.low)) (higher (integer_of first.high) (integer_of second.high)) }
{
    Value {
        sort: NUMBERS,
        low: lower(first.low, second.low),
        high: higher(first.high, second.high),
    }
}

// The least and the greatest of one end of the first operand with both ends of the second; none, where one leaves the integers.
fn with_both(operator: Arithmetic, end: u64, second: Value) -> Option<(u64, u64)>
    ensures { result ≡ two_results (compute operator (integer_of end) (integer_of second.low)) (compute operator (integer_of end) (integer_of second.high)) }
{
    let sooner = compute(operator, end, second.low).ok()?;
    let later = compute(operator, end, second.high).ok()?;
    Some((lower(sooner, later), higher(sooner, later)))
}

// Whether a range holds 0.
#[tactic(auto, using(crate::proofs::EndLaws::zero_integer))]
fn holds_zero(range: Value) -> bool
    ensures { result ≡ (not (lt_z (pos 0) (integer_of range.low)) && not (lt_z (integer_of range.high) (pos 0))) }
{
    !less(0, range.low) && !less(range.high, 0)
}

// Whether an operator is Div and its second operand's range holds 0.
fn divisor_may_be_zero(operator: Arithmetic, second: Value) -> bool
    ensures { result ≡ divisor_may_be_zero operator (integer_of second.low) (integer_of second.high) }
{
    match operator {
        Arithmetic::Div => holds_zero(second),
        Arithmetic::Sum | Arithmetic::Sub | Arithmetic::Mul => false,
    }
}

// Sum, Sub, Mul and Div: the least and the greatest over the four pairs of the operands' ends; none, where one leaves the integers or a divisor may
// be 0.
pub(crate) fn over_ends(operator: Arithmetic, first: Value, second: Value) -> Option<(u64, u64)>
    ensures { result ≡ span_words (carry_arithmetic operator (integer_of first.low) (integer_of first.high) (integer_of second.low) (integer_of second.high)) }
{
    if divisor_may_be_zero(operator, second) {
        return None;
    }
    let (least, greatest) = with_both(operator, first.low, second)?;
    let (later_least, later_greatest) = with_both(operator, first.high, second)?;
    Some((lower(least, later_least), higher(greatest, later_greatest)))
}

// Lt to Ge: the lowest of the first with the highest of the second, and the other two ends, tell which truths are possible.
pub(crate) fn compared_ends(order: Order, first: Value, second: Value) -> Value
    ensures { OrderCarried order (integer_of first.low) (integer_of first.high) (integer_of second.low) (integer_of second.high) result }
{
    let outer = compare(order, first.low, second.high);
    let inner = compare(order, first.high, second.low);
    match order {
        Order::Lt | Order::Le => truths(!inner, outer),
        Order::Gt | Order::Ge => truths(!outer, inner),
    }
}

// Whether two ranges meet.
pub(crate) fn meet(first: Value, second: Value) -> bool
    ensures { result ≡ (not (lt_z (integer_of second.high) (integer_of first.low)) && not (lt_z (integer_of first.high) (integer_of second.low))) }
{
    !less(second.high, first.low) && !less(first.high, second.low)
}

// Whether two ranges are one number, the same.
pub(crate) fn same_number(first: Value, second: Value) -> bool
    ensures { result ≡ (equal_integers (integer_of first.low) (integer_of second.high) && equal_integers (integer_of first.high) (integer_of second.low)) }
{
    first.low == second.high && first.high == second.low
}
