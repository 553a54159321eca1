// The needs of an image: its tree is loaded, and its figures are worked out.
ghost use Rattle.std.specs.Prelude.{◌≡◌, ◌≤◌, length};
ghost use Rattle.rules.specs.paper.Limits.{most_registers, work_words};
ghost use Rattle.rules.specs.paper.Engine.{check_image, needs_answer};
ghost use Rattle.reader.specs.Put.{KeptBeyond};
ghost use Rattle.calls.specs.Needs.{with_steps, needs_reply, SmallTree, EstimatedAs};

use crate::Estimated;
use crate::refused::nowhere;
use estimator::figures::{MOST_STEPS, Need};
use estimator::{has_loop, routine};
use loader::load;
use rules::refusals::{Refusal, Refused};

// The room figures of a need, with these steps.
fn with_steps(need: Need, steps: Option<u64>) -> Estimated
    ensures { result ≡ with_steps need steps }
{
    Estimated {
        control: need.control as u64,
        values: need.values as u64,
        cells: need.cells as u64,
        bindings: need.bindings as u64,
        steps,
    }
}

// The figures of the tree of so many nodes that stands in the work words. Where a Loop is in it the steps are open; where none is, and they
// come out above the most that are given, there are no figures.
fn figures(work: &mut [u64], registers: usize, nodes: usize) -> Result<Estimated, Refused>
    requires work_words_in_bounds { work_words ≤ length work.old }
    requires registers_le_most_registers { registers ≤ most_registers }
    requires small_tree { SmallTree work.old registers nodes }
    ensures estimated_as { EstimatedAs work.old registers nodes result }
    ensures kept_beyond { KeptBeyond work_words work.old work.new }
{
    let need = routine(work, registers, nodes);
    let open = has_loop(work, nodes);
    if open {
        return Ok(with_steps(need, None));
    }
    if MOST_STEPS < need.steps {
        return Err(nowhere(Refusal::TooManySteps));
    }
    Ok(with_steps(need, Some(need.steps as u64)))
}

// The image, then its figures. The first 8,192 work words are spoilt.
pub(crate) fn estimate_image(image: &[u32], work: &mut [u64]) -> Result<Estimated, Refused>
    requires { work_words ≤ length work.old }
    ensures value { result ≡ needs_reply (needs_answer (check_image image.now)) }
    ensures kept_beyond { KeptBeyond work_words work.old work.new }
{
    let loaded = load(image, work)?;
    figures(work, loaded.registers, loaded.nodes)
}
