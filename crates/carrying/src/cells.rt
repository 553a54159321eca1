// The cells: read, made and set; and a copy of all of them kept, exchanged, and widened by.
ghost use Rattle.std.specs.Prelude.{◌≡◌, ◌≤◌, ◌<◌, length};
ghost use Rattle.rules.specs.paper.Limits.{most_cells};
ghost use Rattle.carrying.specs.Layout.{regions_end, cell_value, location_value};
ghost use Rattle.carrying.specs.Frames.{PutCell, SetCell, Copied, Exchanged, Widened};

use crate::layout::{CELL_HIGHS, CELL_LOWS, CELL_SORTS};
use intervals::operators::wider;
use intervals::values::{LOCATION, Value};

// The two words of a cell, without its sort.
#[derive(Clone, Copy, Debug, PartialEq, Eq)]
pub struct Ends {
    pub low: u64,
    pub high: u64,
}

// A cell's location.
pub fn location(cell: usize) -> Value
    ensures { result ≡ location_value cell }
{
    Value {
        sort: LOCATION,
        low: cell as u64,
        high: cell as u64,
    }
}

// What a cell holds.
pub fn contents(work: &[u64], at: usize) -> Value
    requires regions_end_in_bounds { regions_end ≤ length work.now }
    requires at_lt_most_cells { at < most_cells }
    ensures { result ≡ cell_value work.now at }
{
    Value {
        sort: work[CELL_SORTS + at],
        low: work[CELL_LOWS + at],
        high: work[CELL_HIGHS + at],
    }
}

// A new cell.
pub fn put_cell(work: &mut [u64], at: usize, value: Value)
    requires regions_end_in_bounds { regions_end ≤ length work.old }
    requires at_lt_most_cells { at < most_cells }
    ensures { PutCell work.old work.new at value }
{
    work[CELL_SORTS + at] = value.sort;
    work[CELL_LOWS + at] = value.low;
    work[CELL_HIGHS + at] = value.high;
}

// A cell is set to a value of its sort.
pub fn set_cell(work: &mut [u64], at: usize, low: u64, high: u64)
    requires regions_end_in_bounds { regions_end ≤ length work.old }
    requires at_lt_most_cells { at < most_cells }
    ensures { SetCell work.old work.new at low high }
{
    work[CELL_LOWS + at] = low;
    work[CELL_HIGHS + at] = high;
}

// A copy of so many cells.
pub fn copy(kept: &mut [Ends], work: &[u64], cells: usize)
    requires regions_end_in_bounds { regions_end ≤ length work.now }
    requires cells_le_most_cells { cells ≤ most_cells }
    requires kept_long { cells ≤ length kept.old }
    ensures { Copied work.now kept.new cells }
{
    for (at, ends) in kept[..cells].iter_mut().enumerate() {
        *ends = Ends {
            low: work[CELL_LOWS + at],
            high: work[CELL_HIGHS + at],
        };
    }
}

// The cells and their copy change places.
pub fn exchange(kept: &mut [Ends], work: &mut [u64], cells: usize)
    requires regions_end_in_bounds { regions_end ≤ length work.old }
    requires cells_le_most_cells { cells ≤ most_cells }
    requires kept_long { cells ≤ length kept.old }
    ensures { Exchanged work.old work.new kept.old kept.new cells }
{
    for (at, ends) in kept[..cells].iter_mut().enumerate() {
        let cell = contents(work, at);
        set_cell(work, at, ends.low, ends.high);
        *ends = Ends {
            low: cell.low,
            high: cell.high,
        };
    }
}

// Each cell takes the wider ends of its copy and of what it holds, or every truth of both.
pub fn widen(work: &mut [u64], kept: &[Ends], cells: usize)
    requires regions_end_in_bounds { regions_end ≤ length work.old }
    requires cells_le_most_cells { cells ≤ most_cells }
    requires kept_long { cells ≤ length kept.now }
    ensures { Widened work.old work.new kept.now cells }
{
    for (at, ends) in kept[..cells].iter().enumerate() {
        let second = contents(work, at);
        let first = Value {
            sort: second.sort,
            low: ends.low,
            high: ends.high,
        };
        let both = wider(first, second);
        set_cell(work, at, both.low, both.high);
    }
}
