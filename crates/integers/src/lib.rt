// The arithmetic of the automaton: 64-bit integers, each held in one word by two's complement.
#![tactic(auto)]

ghost use Rattle.std.specs.Prelude.{◌≡◌, ◌<◌, ℤ, pos, int_lt, unsigned_abs, FitsSigned};
ghost use Rattle.std.specs.Int.{w64};
ghost use Rattle.std.specs.Option.{SomeIff};
ghost use Rattle.rules.specs.declared.kinds.Arithmetic.TheVariants.{Sum, Sub, Mul, Div};
ghost use Rattle.rules.specs.paper.Integers.{compute, compare, ranged};
ghost use Rattle.integers.specs.Words.{integer_of, computed};

use rules::kinds::{Arithmetic, Order};
use rules::refusals::Reason;

// Whether the first is below the second.
#[tactic(auto, using(crate::proofs::CastLaws::cast_word))]
pub fn less(first: u64, second: u64) -> bool
    ensures { result ≡ int_lt (integer_of first) (integer_of second) }
{
    first.cast_signed() < second.cast_signed()
}

// Whether an order holds of two integers.
#[tactic(auto, using(crate::proofs::OrderLaws::compare_le, crate::proofs::OrderLaws::compare_ge), unfolding(rules::specs::paper::Integers::compare))]
pub fn compare(order: Order, first: u64, second: u64) -> bool
    ensures { result ≡ compare order (integer_of first) (integer_of second) }
{
    match order {
        Order::Lt => less(first, second),
        Order::Le => !less(second, first),
        Order::Gt => less(second, first),
        Order::Ge => !less(first, second),
    }
}

// What an arithmetic operator makes of two integers: the word of an integer, or the reason for which its step is withheld.
pub fn compute(operator: Arithmetic, first: u64, second: u64) -> Result<u64, Reason>
    ensures { result ≡ computed (compute operator (integer_of first) (integer_of second)) }
{
    match operator {
        Arithmetic::Sum => sum(first, second),
        Arithmetic::Sub => difference(first, second),
        Arithmetic::Mul => product(first, second),
        Arithmetic::Div => quotient(first, second),
    }
}

// The word of an integer that is there where it is in range.
fn in_word(integer: Option<i64>) -> Result<u64, Reason>
    ensures { (z : ℤ) → SomeIff integer (FitsSigned w64 z) z → result ≡ computed (ranged z) }
{
    match integer {
        Some(integer) => Ok(integer.cast_unsigned()),
        None => Err(Reason::OutOfRange),
    }
}

// The first plus the second.
#[tactic(auto, using(crate::proofs::CastLaws::cast_word), unfolding(rules::specs::paper::Integers::compute))]
pub fn sum(first: u64, second: u64) -> Result<u64, Reason>
    ensures { result ≡ computed (compute Sum (integer_of first) (integer_of second)) }
{
    in_word(first.cast_signed().checked_add(second.cast_signed()))
}

// The first minus the second.
#[tactic(auto, using(crate::proofs::CastLaws::cast_word), unfolding(rules::specs::paper::Integers::compute))]
pub fn difference(first: u64, second: u64) -> Result<u64, Reason>
    ensures { result ≡ computed (compute Sub (integer_of first) (integer_of second)) }
{
    in_word(first.cast_signed().checked_sub(second.cast_signed()))
}

// The first times the second.
#[tactic(auto, using(crate::proofs::CastLaws::cast_word), unfolding(rules::specs::paper::Integers::compute))]
pub fn product(first: u64, second: u64) -> Result<u64, Reason>
    ensures { result ≡ computed (compute Mul (integer_of first) (integer_of second)) }
{
    in_word(first.cast_signed().checked_mul(second.cast_signed()))
}

// Whether an integer is below zero.
#[tactic(auto, using(crate::proofs::CastLaws::cast_word))]
pub fn is_negative(word: u64) -> bool
    ensures { result ≡ int_lt (integer_of word) (pos 0) }
{
    word.cast_signed().is_negative()
}

// How far an integer is from zero.
#[tactic(auto, using(crate::proofs::CastLaws::cast_word))]
pub fn magnitude(word: u64) -> u64
    ensures { result ≡ unsigned_abs (integer_of word) }
{
    word.cast_signed().unsigned_abs()
}

// The first by the second: the largest integer not above the quotient, by their magnitudes. A negative quotient has its magnitude rounded up for that.
pub fn quotient(first: u64, second: u64) -> Result<u64, Reason>
    ensures { result ≡ computed (compute Div (integer_of first) (integer_of second)) }
{
    if second == 0 {
        return Err(Reason::ZeroDivisor);
    }
    let dividend = magnitude(first);
    let divisor = magnitude(second);
    if is_negative(first) == is_negative(second) {
        in_word(0i64.checked_add_unsigned(dividend / divisor))
    } else {
        in_word(0i64.checked_sub_unsigned(dividend.div_ceil(divisor)))
    }
}
