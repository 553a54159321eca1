// The engine's five calls: the checker alone, the needs alone, the ranges, the annex page, and the run.
#![tactic(auto)]

mod estimate;
mod limits;
mod perform;
mod print;
mod refused;

ghost use Rattle.std.specs.Prelude.{◌≡◌};
ghost use Rattle.rules.specs.paper.Engine.{checker, needs};
ghost use Rattle.page.specs.Call.{page_call};
ghost use Rattle.calls.specs.Answers.{check_reply, WordsLent};
ghost use Rattle.calls.specs.Needs.{needs_reply};
ghost use Rattle.calls.specs.Page.{PagedAs};
ghost use Rattle.calls.specs.Ranges.{ranges_call, RangedAs};
ghost use Rattle.calls.specs.Runs.{run_call, RanAs};

use crate::estimate::estimate_image;
use crate::limits::limit_image;
use crate::perform::run_image;
use crate::print::print_image;
use crate::refused::{nowhere, unstarted};
use automaton::meter::HighMarks;
use loader::{WORK_WORDS, clear, load};
use reader::MOST_NODES;
use rules::kinds::Passed;
use rules::refusals::{Refusal, Refused};

// How many steps a caller may permit at most.
pub const MOST_BUDGET: u64 = 1000000;

// How many words the largest image has: n, r, and a kind and an operand for each node.
pub const MOST_IMAGE_WORDS: usize = 2 + 2 * MOST_NODES;

// What a routine needs at most: how far each size rises, and how many steps are made; none where a Loop leaves them open.
#[derive(Clone, Copy, Debug, PartialEq, Eq)]
pub struct Estimated {
    pub control: u64,
    pub values: u64,
    pub cells: u64,
    pub bindings: u64,
    pub steps: Option<u64>,
}

// What a run that ends has left: the word of a number, a truth, a location's number, or nothing.
#[derive(Clone, Copy, Debug, PartialEq, Eq)]
pub enum Outcome {
    Number(u64),
    Truth(bool),
    Location(u64),
    Nothing,
}

// What a run answers: its outcome, or why there is none, with the steps made and the high marks.
#[derive(Clone, Copy)]
pub struct Ran {
    pub outcome: Result<Outcome, Refused>,
    pub steps: u64,
    pub marks: HighMarks,
}

// Whether a caller lends as many work words as a call may write.
fn enough_words(work: &[u64]) -> Result<(), Refused>
    ensures { WordsLent work.now result }
{
    if work.len() < WORK_WORDS {
        return Err(nowhere(Refusal::Work));
    }
    Ok(())
}

// By `check_exact` (rules, ImageExact.antt) an image passes here exactly when it meets the paper's shape, scope and type rules.
// The checker alone: any image words, any work words. Under 8,192 work words nothing is touched; every other call leaves the first
// 8,192 of them 0 and the rest as they were.
pub fn check(image: &[u32], work: &mut [u64]) -> Result<Passed, Refused>
    ensures value { result ≡ check_reply (checker image.now work.old).answer }
    ensures work_after { work.new ≡ (checker image.now work.old).work }
{
    enough_words(work)?;
    let loaded = load(image, work);
    clear(work);
    Ok(loaded?.root)
}

// By `nothing_exceeds` and `each_reached` (rules, FreeMost.antt) the figures are the most over all free runs.
// The needs alone: any image words, any work words. Under 8,192 work words nothing is touched; every other call leaves the first 8,192 of
// them 0 and the rest as they were.
pub fn needs(image: &[u32], work: &mut [u64]) -> Result<Estimated, Refused>
    ensures value { result ≡ needs_reply (needs image.now work.old).answer }
    ensures work_after { work.new ≡ (needs image.now work.old).work }
{
    enough_words(work)?;
    let answer = estimate_image(image, work);
    clear(work);
    answer
}

// By `runs_within_ranges` (DeliveredRanges.antt) a run from starts within the limits meets none of 31 to 36, and where it ends its registers lie
// within the ends.
// The ranges of the registers: any image words, a lowest and a highest start for each register, words in two's complement, any work words. The
// ends replace the limits; a refusal keeps both lists. Under 8,192 work words nothing is touched; every other call leaves the first 8,192 of
// them 0 and the rest as they were.
pub fn ranges(
    image: &[u32],
    lowest: &mut [u64],
    highest: &mut [u64],
    work: &mut [u64],
) -> Result<(), Refused>
    ensures { RangedAs (ranges_call image.now lowest.old highest.old work.old) result lowest.new highest.new work.new }
{
    enough_words(work)?;
    let answer = limit_image(image, lowest, highest, work);
    clear(work);
    answer
}

// By `every_line` (page, EveryLine.antt) each line has 30 columns and a newline, whatever the tree.
// The annex page: any image words, any bytes lent for the page, any work words. The lines stand in the first 31 bytes for each node, and the
// bytes beyond them stay. A refusal writes no byte. Under 8,192 work words nothing is touched; every other call leaves the first 8,192 of
// them 0 and the rest as they were.
pub fn page(image: &[u32], page: &mut [u8], work: &mut [u64]) -> Result<(), Refused>
    ensures { PagedAs (page_call image.now page.old work.old) result page.new work.new }
{
    enough_words(work)?;
    let answer = print_image(image, page, work);
    clear(work);
    answer
}

// The run: any image words, any registers, any budget, any work words. Under 8,192 work words (22) or with a budget above 1,000,000 (21)
// nothing is touched; every other call leaves the first 8,192 work words 0 and the rest as they were. The registers are words in two's
// complement. A run that is refused before its first step keeps them; any other leaves in them what its last state has.
pub fn run(image: &[u32], registers: &mut [u64], budget: u64, work: &mut [u64]) -> Ran
    ensures { RanAs (run_call image.now registers.old budget work.old) result registers.new work.new }
{
    if let Err(refused) = enough_words(work) {
        return unstarted(refused);
    }
    if MOST_BUDGET < budget {
        return unstarted(nowhere(Refusal::Budget));
    }
    let answer = run_image(image, registers, budget, work);
    clear(work);
    answer
}
