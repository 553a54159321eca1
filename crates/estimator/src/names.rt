// The names in scope: a row for each node that binds one, and the need of its function, or none.
ghost use Rattle.std.specs.Prelude.{◌≤◌, ◌<◌, length};
ghost use Rattle.rules.specs.paper.Limits.{most_nodes, names};
ghost use Rattle.rules.specs.paper.Needs.{Needs};
ghost use Rattle.estimator.specs.Entries.{entries_end, SmallFigures, EntryAt, KeptEntry, NamesAt, NeedFoundAt};

use crate::figures::{Need, nothing};
use reader::{MOST_NODES, NAMES};

// Where the rows begin among the work words: a node's stands at ROWS + its place. A pointer is one more than its row's node, so its row
// stands at POINTERS + the pointer; 0 points at no row. A row's word is its name + NAMES × the pointer of the row before it.
const ROWS: usize = MOST_NODES;

const POINTERS: usize = ROWS - 1;

// Where the needs begin, two words for each node: control, values and cells in the first, bindings, steps and all
// steps in the second.
const NEEDS: usize = ROWS + MOST_NODES;

const POINTED_NEEDS: usize = NEEDS - 2;

// The room of one number where several stand in a word.
const ROOM: u64 = 1 << 20;

// The entry of a node: its name, the pointer of the row before it, and the need of what the name is bound to.
pub(crate) fn keep(work: &mut [u64], node: usize, name: usize, link: usize, need: Need)
    requires entries_end_in_bounds { entries_end ≤ length work.old }
    requires node_lt_most_nodes { node < most_nodes }
    requires name_lt_names { name < names }
    requires link_le_node { link ≤ node }
    requires small_figures { SmallFigures need }
    ensures { KeptEntry work.old work.new node name link need }
{
    work[ROWS + node] = (name + NAMES * link) as u64;
    let at = NEEDS + 2 * node;
    work[at] = need.control as u64
        + ROOM * (need.values as u64)
        + ROOM * ROOM * (need.cells as u64);
    work[at + 1] = need.bindings as u64
        + ROOM * (need.steps as u64)
        + ROOM * ROOM * (need.all_steps as u64);
}

// The need that an entry has.
fn kept(work: &[u64], at: usize) -> Need
    requires at_le_most_nodes { at ≤ most_nodes }
    requires at_positive { 1 ≤ at }
    requires entries_end_in_bounds { entries_end ≤ length work.now }
    ensures { EntryAt work.now at result }
{
    let sizes = work[POINTED_NEEDS + 2 * at];
    let others = work[POINTED_NEEDS + 2 * at + 1];
    Need {
        control: (sizes % ROOM) as u32,
        values: (sizes / ROOM % ROOM) as u32,
        cells: (sizes / (ROOM * ROOM) % ROOM) as u32,
        bindings: (others % ROOM) as u32,
        steps: (others / ROOM % ROOM) as u32,
        all_steps: (others / (ROOM * ROOM) % ROOM) as u32,
    }
}

// The need of what a name is bound to in the scope at a pointer.
pub(crate) fn need_of(work: &[u64], scope: usize, name: usize) -> Need
    requires entries_end_in_bounds { entries_end ≤ length work.now }
    requires names_at { (N : Needs) × NamesAt work.now scope N }
    ensures { NeedFoundAt work.now scope name result }
{
    let mut at = scope;
    while at != 0 {
        let row = work[POINTERS + at] as usize;
        if row % NAMES == name {
            return kept(work, at);
        }
        at = row / NAMES;
    }
    nothing()
}
