// The names in scope: rows in the work words, each with a pointer to the one below it. A pointer is one more than the number of its row; 0 points at
// no row.
ghost use Rattle.std.specs.Prelude.{◌≡◌, ◌≤◌, ◌<◌, length, IfSome};
ghost use Rattle.rules.specs.paper.Limits.{names, most_bindings};
ghost use Rattle.carrying.specs.Layout.{regions_end, sorts, row_value, row_pointer};
ghost use Rattle.carrying.specs.States.{SomeNames, FoundAt};
ghost use Rattle.carrying.specs.Frames.{PutRow};

use crate::layout::{POINTER_UNIT, ROW_HIGHS, ROW_LINKS, ROW_LOWS, SORTS};
use intervals::values::Value;
use reader::NAMES;

// Where the newest row of a name is, from a pointer on down the chain: its pointer.
pub fn find(work: &[u64], environment: usize, name: usize) -> Option<usize>
    requires regions_end_in_bounds { regions_end ≤ length work.now }
    requires some_names { SomeNames work.now environment }
    ensures found_at { FoundAt work.now environment name result }
    ensures upper_bound { IfSome result (λ at. at ≤ environment) }
{
    let mut at = environment;
    while at != 0 {
        let link = work[ROW_LINKS - 1 + at] as usize;
        if link % NAMES == name {
            return Some(at);
        }
        at = link / POINTER_UNIT;
    }
    None
}

// What the row at a pointer holds.
pub fn row_value(work: &[u64], at: usize) -> Value
    requires regions_end_in_bounds { regions_end ≤ length work.now }
    requires le_at { 1 ≤ at }
    requires at_le_most_bindings { at ≤ most_bindings }
    ensures { result ≡ row_value work.now at }
{
    let link = work[ROW_LINKS - 1 + at];
    Value {
        sort: link / (NAMES as u64) % (SORTS as u64),
        low: work[ROW_LOWS - 1 + at],
        high: work[ROW_HIGHS - 1 + at],
    }
}

// The pointer of the row below the one at a pointer.
pub fn row_below(work: &[u64], at: usize) -> usize
    requires regions_end_in_bounds { regions_end ≤ length work.now }
    requires le_at { 1 ≤ at }
    requires at_le_most_bindings { at ≤ most_bindings }
    ensures { result ≡ row_pointer work.now at }
{
    work[ROW_LINKS - 1 + at] as usize / POINTER_UNIT
}

// A row: its name, the pointer of the row below it, and the value.
pub fn put_row(work: &mut [u64], row: usize, name: usize, below: usize, value: Value)
    requires regions_end_in_bounds { regions_end ≤ length work.old }
    requires row_lt_most_bindings { row < most_bindings }
    requires name_lt_names { name < names }
    requires below_le_most_bindings { below ≤ most_bindings }
    requires sort_lt_sorts { value.sort < sorts }
    ensures { PutRow work.old work.new row name below value }
{
    work[ROW_LINKS + row] = (name + POINTER_UNIT * below) as u64 + NAMES as u64 * value.sort;
    work[ROW_LOWS + row] = value.low;
    work[ROW_HIGHS + row] = value.high;
}
