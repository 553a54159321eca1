// Why an image, a call or a step is refused: each case by name, and its number.
ghost use Rattle.std.specs.Prelude.{◌≡◌};
ghost use Rattle.rules.specs.paper.Refusals.{reason_number, refusal_number};

// By the run: why a step is withheld.
#[derive(Clone, Copy, Debug, PartialEq, Eq)]
pub enum Reason {
    // The steps made equal the budget and control is not empty.
    Steps,
    ZeroDivisor,
    // The result is outside the integers.
    OutOfRange,
    // One more cell, binding or entry than there may be.
    Cells,
    Bindings,
    ValueEntries,
    ControlEntries,
}

impl Reason {
    // The number that stands for it.
    #[tactic(auto, unfolding(crate::specs::paper::Refusals::reason_number))]
    pub fn number(self) -> u64
        ensures { result ≡ reason_number self }
    {
        match self {
            Reason::Steps => 30,
            Reason::ZeroDivisor => 31,
            Reason::OutOfRange => 32,
            Reason::Cells => 33,
            Reason::Bindings => 34,
            Reason::ValueEntries => 35,
            Reason::ControlEntries => 36,
        }
    }
}

#[derive(Clone, Copy, Debug, PartialEq, Eq)]
pub enum Refusal {
    // Caused by the maker of the image.
    Length,
    Size,
    Kind,
    Operand,
    Tree,
    Depth,
    // By the routine's author.
    Unbound,
    Mistyped,
    Repeated,
    NotAssignable,
    BadCall,
    // By the host.
    Registers,
    Budget,
    Work,
    // By the run.
    Withheld(Reason),
    // By the needs and the ranges: the steps come out above the most that are given.
    TooManySteps,
    // By the host: the lent page is shorter than a line for each node.
    ShortPage,
    // By the ranges: a lowest start exceeds its highest; the image has a Loop; an end leaves the integers or a divisor's range holds 0.
    CrossedLimits,
    HasLoop,
    UnsafeArithmetic,
}

impl Refusal {
    // The number that stands for it.
    #[tactic(auto, unfolding(crate::specs::paper::Refusals::refusal_number))]
    pub fn number(self) -> u64
        ensures { result ≡ refusal_number self }
    {
        match self {
            Refusal::Length => 1,
            Refusal::Size => 2,
            Refusal::Kind => 3,
            Refusal::Operand => 4,
            Refusal::Tree => 5,
            Refusal::Depth => 6,
            Refusal::Unbound => 10,
            Refusal::Mistyped => 11,
            Refusal::Repeated => 12,
            Refusal::NotAssignable => 13,
            Refusal::BadCall => 14,
            Refusal::Registers => 20,
            Refusal::Budget => 21,
            Refusal::Work => 22,
            Refusal::Withheld(reason) => reason.number(),
            Refusal::TooManySteps => 40,
            Refusal::ShortPage => 41,
            Refusal::CrossedLimits => 42,
            Refusal::HasLoop => 43,
            Refusal::UnsafeArithmetic => 44,
        }
    }
}

// A refusal with its place: the number of a node, or 0 where it has none.
#[derive(Clone, Copy, Debug, PartialEq, Eq)]
pub struct Refused {
    pub refusal: Refusal,
    pub place: usize,
}
