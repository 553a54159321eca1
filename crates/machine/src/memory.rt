// Entries, rows and cells, put into the work words and taken from them.
ghost use Rattle.std.specs.Prelude.{◌≡◌, ◌∷◌, ◌+◌, ◌<◌, ◌≤◌, length, get_or, set};
ghost use Rattle.rules.specs.paper.Limits.{most_cells, most_bindings, most_value_entries, most_control_entries, work_words};
ghost use Rattle.machine.specs.Layout.{cell_payloads, cell_labels};
ghost use Rattle.machine.specs.Regions.{slot, regions, Fits, with_control, with_values, with_row, with_cells, raised_control, raised_values, raised_rows, raised_cells, set_slot};

use crate::layout::{
    CELL_LABELS, CELL_PAYLOADS, CONTROL, ROW_LABELS, ROW_PAYLOADS, VALUE_LABELS, VALUE_PAYLOADS,
};
use crate::{Location, Machine};

// Where a region of two words an entry has its payloads and its labels.
#[derive(Clone, Copy)]
struct Slots {
    payloads: usize,
    labels: usize,
}

const VALUES: Slots = Slots {
    payloads: VALUE_PAYLOADS,
    labels: VALUE_LABELS,
};

const ROWS: Slots = Slots {
    payloads: ROW_PAYLOADS,
    labels: ROW_LABELS,
};

const CELLS: Slots = Slots {
    payloads: CELL_PAYLOADS,
    labels: CELL_LABELS,
};

// Both words of the entry at a number.
#[inline(always)]
fn put_slot(work: &mut [u64], slots: Slots, at: usize, label: u64, payload: u64)
    requires payload_in_bounds { slots.payloads + at < length work.old }
    requires label_in_bounds { slots.labels + at < length work.old }
    ensures { work.new ≡ set (set work.old (slots.payloads + at) payload) (slots.labels + at) label }
{
    work[slots.payloads + at] = payload;
    work[slots.labels + at] = label;
}

// One more entry of control.
pub fn put_control(work: &mut [u64], mut m: Machine, item: u64) -> Machine
    requires fits { Fits work.old m }
    requires control_lt_most_control_entries { m.control < most_control_entries }
    ensures value { result ≡ raised_control m }
    ensures m_after { regions work.new (raised_control m) ≡ with_control item (regions work.old m) }
{
    work[CONTROL + m.control] = item;
    m.control = m.control + 1;
    m
}

// One more entry of the value stack.
pub fn put_value(work: &mut [u64], mut m: Machine, label: u64, payload: u64) -> Machine
    requires fits { Fits work.old m }
    requires values_lt_most_value_entries { m.values < most_value_entries }
    ensures value { result ≡ raised_values m }
    ensures m_after { regions work.new (raised_values m) ≡ with_values (slot label payload ∷ (regions work.old m).values) (regions work.old m) }
{
    put_slot(work, VALUES, m.values, label, payload);
    m.values = m.values + 1;
    m
}

// One more row: a name, what it is bound to, and the pointer of the row below it.
pub fn put_row(work: &mut [u64], mut m: Machine, label: u64, payload: u64) -> Machine
    requires fits { Fits work.old m }
    requires bindings_lt_most_bindings { m.bindings < most_bindings }
    ensures value { result ≡ raised_rows m }
    ensures m_after { regions work.new (raised_rows m) ≡ with_row (slot label payload) (regions work.old m) }
{
    put_slot(work, ROWS, m.bindings, label, payload);
    m.bindings = m.bindings + 1;
    m
}

// One more cell.
pub fn put_cell(work: &mut [u64], mut m: Machine, label: u64, payload: u64) -> Machine
    requires fits { Fits work.old m }
    requires cells_lt_most_cells { m.cells < most_cells }
    ensures value { result ≡ raised_cells m }
    ensures m_after { regions work.new (raised_cells m) ≡ with_cells (slot label payload ∷ (regions work.old m).cells) (regions work.old m) }
{
    put_slot(work, CELLS, m.cells, label, payload);
    m.cells = m.cells + 1;
    m
}

// A live cell is set.
pub fn set_cell(work: &mut [u64], m: Machine, at: Location, label: u64, payload: u64)
    requires fits { Fits work.old m }
    requires at_lt_cells { at.0 < m.cells }
    ensures { regions work.new m ≡ with_cells (set_slot at.0 (slot label payload) (regions work.old m).cells) (regions work.old m) }
{
    put_slot(work, CELLS, at.0, label, payload);
}

// What a live cell holds: its label and its payload. A function over both regions would be no plainer: it reads one word of a given place.
pub fn cell_label(work: &[u64], at: Location) -> u64
    requires work_words_in_bounds { work_words ≤ length work.now }
    requires at_lt_most_cells { at.0 < most_cells }
    ensures { result ≡ get_or work.now (cell_labels + at.0) 0 }
{
    work[CELL_LABELS + at.0]
}

pub fn cell_payload(work: &[u64], at: Location) -> u64
    requires work_words_in_bounds { work_words ≤ length work.now }
    requires at_lt_most_cells { at.0 < most_cells }
    ensures { result ≡ get_or work.now (cell_payloads + at.0) 0 }
{
    work[CELL_PAYLOADS + at.0]
}
