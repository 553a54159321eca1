// Where the machine's regions stand in the work words, behind the tree's nodes, and how a word of each is made up. Layout.antt has the same.
use reader::{NAMES, kinds};

// The paper's limits.
pub const MOST_CELLS: usize = 256;

pub const MOST_BINDINGS: usize = 512;

pub const MOST_VALUE_ENTRIES: usize = 512;

pub const MOST_CONTROL_ENTRIES: usize = 512;

// Control, one word an entry; the value stack, the rows of the live bindings and the cells, two words each: payloads and labels. The two are
// apart, and no array of pairs, since all memory is one lent slice of words; and the registers are one stretch of the cells' payloads.
pub const CONTROL: usize = 2048;

pub const VALUE_PAYLOADS: usize = CONTROL + MOST_CONTROL_ENTRIES;

pub const VALUE_LABELS: usize = VALUE_PAYLOADS + MOST_VALUE_ENTRIES;

pub const ROW_LABELS: usize = VALUE_LABELS + MOST_VALUE_ENTRIES;

pub const ROW_PAYLOADS: usize = ROW_LABELS + MOST_BINDINGS;

pub const CELL_PAYLOADS: usize = ROW_PAYLOADS + MOST_BINDINGS;

pub const CELL_LABELS: usize = CELL_PAYLOADS + MOST_CELLS;

// The entry on top of a stack stands at the height plus the word before the region, the one below it a word before that.
pub const TOP_CONTROL: usize = CONTROL - 1;

pub const TOP_PAYLOAD: usize = VALUE_PAYLOADS - 1;

pub const SECOND_PAYLOAD: usize = VALUE_PAYLOADS - 2;

pub const THIRD_PAYLOAD: usize = VALUE_PAYLOADS - 3;

pub const TOP_LABEL: usize = VALUE_LABELS - 1;

// A pointer is one more than the number of its row.
pub const ROW_AT_POINTER: usize = ROW_LABELS - 1;

// A name is the low part of a row's label.
pub const NAME_UNIT: u64 = NAMES as u64;

// A row's label: its name, the label of what it binds, and the pointer of the row below it.
pub const LABEL_UNIT: u64 = 64;

pub const POINTER_UNIT: u64 = 128;

// A closure: the place of its Abs, and the pointer of its environment.
pub const CLOSURE_UNIT: u64 = 2048;

// An entry of control: a node is its place, and a mark is above all places, with its number and what it carries: a second mark the live
// bindings to go back to, a Call's mark the operand of its Call, name + 64 × count.
pub const MARK: u64 = 2048;

pub const MARK_NUMBERS: u64 = 64;

pub const CARRIED_UNIT: u64 = 4096;

pub const COUNT_UNIT: u64 = CARRIED_UNIT * NAME_UNIT;

// A mark has the number of the kind that it belongs to; a block's second has that of CSeq and a DSeq's first that of Abs, which have no mark
// of their own.
pub const EXTEND: usize = kinds::BLK;

pub const LEAVE: usize = kinds::CSEQ;

pub const DSEQ_EXTEND: usize = kinds::ABS;

pub const DSEQ_JOIN: usize = kinds::DSEQ;

// The words of the marks, without what they carry.
pub const SUM_MARK: u64 = MARK + kinds::SUM as u64;

pub const SUB_MARK: u64 = MARK + kinds::SUB as u64;

pub const MUL_MARK: u64 = MARK + kinds::MUL as u64;

pub const EQ_MARK: u64 = MARK + kinds::EQ as u64;

pub const LT_MARK: u64 = MARK + kinds::LT as u64;

pub const LE_MARK: u64 = MARK + kinds::LE as u64;

pub const GT_MARK: u64 = MARK + kinds::GT as u64;

pub const AND_MARK: u64 = MARK + kinds::AND as u64;

pub const NOT_MARK: u64 = MARK + kinds::NOT as u64;

pub const ASSIGN_MARK: u64 = MARK + kinds::ASSIGN as u64;

pub const LOOP_MARK: u64 = MARK + kinds::LOOP as u64;

pub const COND_MARK: u64 = MARK + kinds::COND as u64;

pub const LEAVE_MARK: u64 = MARK + LEAVE as u64;

pub const EXTEND_MARK: u64 = MARK + EXTEND as u64;

pub const CALL_MARK: u64 = MARK + kinds::CALL as u64;

pub const BIND_MARK: u64 = MARK + kinds::BIND as u64;

pub const DSEQ_EXTEND_MARK: u64 = MARK + DSEQ_EXTEND as u64;

pub const DSEQ_JOIN_MARK: u64 = MARK + DSEQ_JOIN as u64;

pub const REF_MARK: u64 = MARK + kinds::REF as u64;
