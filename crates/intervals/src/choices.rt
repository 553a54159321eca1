// Truths by which are possible: a word is 1 where the truth is, else 0. Both of two are possible where the words' `&` is 1, some of two where their
// `|` is.
ghost use Rattle.intervals.specs.Values.{AndCarried, OrCarried, SameTruthsCarried};

use crate::values::{TRUTHS, Value};

// And: true where both are; false where the first is, whatever the second, or the second is.
pub(crate) fn and(first: Value, second: Value) -> Value
    ensures { AndCarried first second result }
{
    Value {
        sort: TRUTHS,
        low: (first.low & (second.low | second.high)) | (first.high & second.low),
        high: first.high & second.high,
    }
}

// Or: false where both are; true where the first is, whatever the second, or the second is.
pub(crate) fn or(first: Value, second: Value) -> Value
    ensures { OrCarried first second result }
{
    Value {
        sort: TRUTHS,
        low: first.low & second.low,
        high: (first.high & (second.low | second.high)) | (first.low & second.high),
    }
}

// Eq of truths.
pub(crate) fn same_truths(first: Value, second: Value) -> Value
    ensures { SameTruthsCarried first second result }
{
    Value {
        sort: TRUTHS,
        low: (first.low & second.high) | (first.high & second.low),
        high: (first.low & second.low) | (first.high & second.high),
    }
}
