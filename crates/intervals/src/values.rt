// A carried value: its sort and two words (specs/Values.antt).
ghost use Rattle.std.specs.Prelude.{◌≡◌};
ghost use Rattle.intervals.specs.Values.{truths_value};

// The sorts. Of numbers the words are the two ends; of a location both are the location; of truths they are 1 or 0: whether false is possible, and
// whether true is. They are numbers and no enum, since the public functions take any number for a sort.
pub const NUMBERS: u64 = 0;

pub const LOCATION: u64 = 1;

pub const TRUTHS: u64 = 2;

#[derive(Clone, Copy, Debug, PartialEq, Eq)]
pub struct Value {
    pub sort: u64,
    pub low: u64,
    pub high: u64,
}

// The truths that are possible.
pub(crate) fn truths(no: bool, yes: bool) -> Value
    ensures { result ≡ truths_value no yes }
{
    Value {
        sort: TRUTHS,
        low: u64::from(no),
        high: u64::from(yes),
    }
}
