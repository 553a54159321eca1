// The registers: their limits before a routine is carried, and their ends after it.
ghost use Rattle.std.specs.Prelude.{◌≡◌, ◌≤◌, ◌<◌, length};
ghost use Rattle.rules.specs.paper.Limits.{most_registers};
ghost use Rattle.rules.specs.paper.Ranges.{limits_cross};
ghost use Rattle.integers.specs.Words.{integers_of};
ghost use Rattle.carrying.specs.Layout.{regions_end};
ghost use Rattle.carrying.specs.Frames.{Keeps};
ghost use Rattle.ranges.specs.Routine.{RegisterPut, registers_held, RegistersAt, EndsTaken};

use carrying::Held;
use carrying::cells::{contents, location, put_cell};
use carrying::names::put_row;
use integers::less;
use intervals::values::{NUMBERS, Value};

// Whether some lowest is above its highest.
pub fn crossed(lowest: &[u64], highest: &[u64]) -> bool
    requires lowest_len_bound { length lowest.now ≤ most_registers }
    requires highest_len { length highest.now ≡ length lowest.now }
    ensures { result ≡ limits_cross (integers_of lowest.now) (integers_of highest.now) }
{
    lowest
        .iter()
        .zip(highest)
        .any(|(low, high)| less(*high, *low))
}

// Register i is bound to cell i, which holds the numbers within its limits.
fn put_register(work: &mut [u64], i: usize, low: u64, high: u64)
    requires regions_end_in_bounds { regions_end ≤ length work.old }
    requires i_lt_most_registers { i < most_registers }
    ensures register_put { RegisterPut work.old work.new i low high }
    ensures keeps { Keeps work.old work.new 0 0 }
{
    let numbers = Value {
        sort: NUMBERS,
        low,
        high,
    };
    put_row(work, i, i, i, location(i));
    put_cell(work, i, numbers);
}

// The names and cells of the registers.
pub(crate) fn start(work: &mut [u64], lowest: &[u64], highest: &[u64]) -> Held
    requires regions_end_in_bounds { regions_end ≤ length work.old }
    requires lowest_len_bound { length lowest.now ≤ most_registers }
    requires highest_len { length highest.now ≡ length lowest.now }
    ensures value { result ≡ registers_held (length lowest.now) }
    ensures registers_at { RegistersAt work.new (length lowest.now) lowest.now highest.now }
    ensures keeps { Keeps work.old work.new 0 0 }
{
    for (i, (low, high)) in lowest.iter().zip(highest).enumerate() {
        put_register(work, i, *low, *high);
    }
    let registers = lowest.len();
    Held {
        environment: registers,
        bindings: registers,
        cells: registers,
    }
}

// The ends of the registers are the ends of the first cells.
pub(crate) fn take_ends(work: &[u64], lowest: &mut [u64], highest: &mut [u64])
    requires regions_end_in_bounds { regions_end ≤ length work.now }
    requires lowest_len_bound { length lowest.old ≤ most_registers }
    requires highest_len { length highest.old ≡ length lowest.old }
    ensures { EndsTaken work.now (length lowest.old) lowest.new highest.new }
{
    for (i, low) in lowest.iter_mut().enumerate() {
        *low = contents(work, i).low;
    }
    for (i, high) in highest.iter_mut().enumerate() {
        *high = contents(work, i).high;
    }
}
