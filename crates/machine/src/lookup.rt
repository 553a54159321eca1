// Names are found along the chain of rows.
ghost use Rattle.std.specs.Prelude.{◌≤◌, length};
ghost use Rattle.rules.specs.paper.Limits.{most_bindings, work_words};
ghost use Rattle.machine.specs.Layout.{row_labels, row_payloads};
ghost use Rattle.machine.specs.Regions.{slots, regions, Fits};
ghost use Rattle.machine.specs.Lookup.{BindsName, FindsRow};

use crate::Machine;
use crate::layout::{NAME_UNIT, POINTER_UNIT, ROW_AT_POINTER};

// The number of a name's row, from a pointer on down the chain: the newest one of this name.
fn find_row(work: &[u64], bindings: usize, pointer: usize, name: u64) -> usize
    requires work_words_in_bounds { work_words ≤ length work.now }
    requires bindings_le_most_bindings { bindings ≤ most_bindings }
    requires binds_name { BindsName (slots row_labels row_payloads bindings work.now) pointer name }
    ensures { FindsRow work.now (slots row_labels row_payloads bindings work.now) pointer name result }
{
    let mut at = pointer;
    loop {
        let row = work[ROW_AT_POINTER + at];
        if row % NAME_UNIT == name {
            break at - 1;
        }
        at = (row / POINTER_UNIT) as usize;
    }
}

// The number of a name's row in the environment.
pub fn row_of(work: &[u64], m: Machine, name: u64) -> usize
    requires fits { Fits work.now m }
    requires binds_name { BindsName (regions work.now m).rows m.environment name }
    ensures { FindsRow work.now (regions work.now m).rows m.environment name result }
{
    find_row(work, m.bindings, m.environment, name)
}
