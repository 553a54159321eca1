// The ranges of an image: its tree is loaded, and carried over the registers' limits.
ghost use Rattle.std.specs.Prelude.{◌≡◌, false, ◌≤◌, length};
ghost use Rattle.rules.specs.paper.Limits.{most_registers, work_words};
ghost use Rattle.rules.specs.paper.Engine.{check_image};
ghost use Rattle.rules.specs.paper.Ranges.{room_refusal, limits_cross};
ghost use Rattle.integers.specs.Words.{integers_of};
ghost use Rattle.reader.specs.Put.{KeptBeyond};
ghost use Rattle.estimator.specs.Entries.{WritesEntriesFrom};
ghost use Rattle.calls.specs.Needs.{SmallTree};
ghost use Rattle.calls.specs.Runs.{TreeStands};
ghost use Rattle.calls.specs.Ranges.{told, room_refused, room_of, TreeRefused, TreeRanged, ImageRanged};

use crate::refused::nowhere;
use estimator::figures::{MOST_STEPS, Need};
use estimator::{has_loop, routine};
use loader::load;
use machine::layout::{MOST_BINDINGS, MOST_CELLS, MOST_CONTROL_ENTRIES, MOST_VALUE_ENTRIES};
use ranges::carry;
use ranges::registers::crossed;
use rules::refusals::{Reason, Refusal, Refused};

// The first of the reasons of room whose figure passes its limit.
fn room_refusal(need: Need) -> Option<Refusal>
    ensures { result ≡ told (room_refused (room_refusal (room_of need))) }
{
    if MOST_CELLS < need.cells as usize {
        return Some(Refusal::Withheld(Reason::Cells));
    }
    if MOST_BINDINGS < need.bindings as usize {
        return Some(Refusal::Withheld(Reason::Bindings));
    }
    if MOST_VALUE_ENTRIES < need.values as usize {
        return Some(Refusal::Withheld(Reason::ValueEntries));
    }
    if MOST_CONTROL_ENTRIES < need.control as usize {
        return Some(Refusal::Withheld(Reason::ControlEntries));
    }
    None
}

// Why the tree of so many nodes that stands in the work words is not carried, if it is not: a Loop, the steps, the room.
fn tree_refusal(work: &mut [u64], registers: usize, nodes: usize) -> Option<Refusal>
    requires work_words_in_bounds { work_words ≤ length work.old }
    requires registers_le_most_registers { registers ≤ most_registers }
    requires small_tree { SmallTree work.old registers nodes }
    ensures tree_refused { TreeRefused work.old registers nodes result }
    ensures writes_entries_from { WritesEntriesFrom work.old work.new 0 }
{
    let looped = has_loop(work, nodes);
    if looped {
        return Some(Refusal::HasLoop);
    }
    let need = routine(work, registers, nodes);
    if MOST_STEPS < need.all_steps {
        return Some(Refusal::TooManySteps);
    }
    room_refusal(need)
}

// That tree over limits that do not cross, one of each for each register.
fn carry_tree(
    lowest: &mut [u64],
    highest: &mut [u64],
    work: &mut [u64],
    nodes: usize,
) -> Result<(), Refused>
    requires work_words_in_bounds { work_words ≤ length work.old }
    requires highest_len { length highest.old ≡ length lowest.old }
    requires highest_value { limits_cross (integers_of lowest.old) (integers_of highest.old) ≡ false }
    requires tree_stands { TreeStands (length lowest.old) work.old nodes }
    ensures tree_ranged { TreeRanged (length lowest.old) work.old nodes lowest.old highest.old result lowest.new highest.new }
    ensures kept_beyond { KeptBeyond work_words work.old work.new }
{
    if let Some(refusal) = tree_refusal(work, lowest.len(), nodes) {
        return Err(nowhere(refusal));
    }
    carry(work, lowest, highest, nodes)
}

// The same over any limits: first as many of each as registers, and none that cross.
fn limit_tree(
    lowest: &mut [u64],
    highest: &mut [u64],
    work: &mut [u64],
    registers: usize,
    nodes: usize,
) -> Result<(), Refused>
    requires work_words_in_bounds { work_words ≤ length work.old }
    requires tree_stands { TreeStands registers work.old nodes }
    ensures tree_ranged { TreeRanged registers work.old nodes lowest.old highest.old result lowest.new highest.new }
    ensures kept_beyond { KeptBeyond work_words work.old work.new }
{
    if lowest.len() != registers || highest.len() != registers {
        return Err(nowhere(Refusal::Registers));
    }
    if crossed(lowest, highest) {
        return Err(nowhere(Refusal::CrossedLimits));
    }
    carry_tree(lowest, highest, work, nodes)
}

// The image, then its ranges. The first 8,192 work words are spoilt.
pub(crate) fn limit_image(
    image: &[u32],
    lowest: &mut [u64],
    highest: &mut [u64],
    work: &mut [u64],
) -> Result<(), Refused>
    requires { work_words ≤ length work.old }
    ensures image_ranged { ImageRanged (check_image image.now) lowest.old highest.old result lowest.new highest.new }
    ensures kept_beyond { KeptBeyond work_words work.old work.new }
{
    let loaded = load(image, work)?;
    limit_tree(lowest, highest, work, loaded.registers, loaded.nodes)
}
