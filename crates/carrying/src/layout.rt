// Where names and cells stand in the work words, behind the tree's nodes. Layout.antt has the same.
use machine::layout::{MOST_BINDINGS, MOST_CELLS};
use reader::{MOST_NODES, NAMES};

// A row for each live binding: a word for its name, the sort of its value and the pointer of the row below it; and the two words of the value.
pub const ROW_LINKS: usize = MOST_NODES;

pub const ROW_LOWS: usize = ROW_LINKS + MOST_BINDINGS;

pub const ROW_HIGHS: usize = ROW_LOWS + MOST_BINDINGS;

// The cells: the sort and the two words of each.
pub const CELL_SORTS: usize = ROW_HIGHS + MOST_BINDINGS;

pub const CELL_LOWS: usize = CELL_SORTS + MOST_CELLS;

pub const CELL_HIGHS: usize = CELL_LOWS + MOST_CELLS;

// A link: name + NAMES × sort + POINTER_UNIT × pointer.
pub const SORTS: usize = 4;

pub const POINTER_UNIT: usize = NAMES * SORTS;
