// The line of a node, column by column.
ghost use Rattle.std.specs.Prelude.{◌+◌, ◌*◌, ◌≤◌, length};
ghost use Rattle.rules.specs.paper.Limits.{most_nodes};
ghost use Rattle.page.specs.Page.{line_bytes};
ghost use Rattle.page.specs.Writing.{SomeLine, LinePut};

use crate::names::{NAME_COLUMNS, put_name};
use crate::text::put_number;
use reader::{node_kind, operand};

// How many columns each number has. A blank stands behind each column but the last, and a newline behind that.
const NODE_COLUMNS: usize = 4;

const DEPTH_COLUMNS: usize = 2;

const OPERAND_COLUMNS: usize = 10;

const END_COLUMNS: usize = 4;

// Where they begin in a line.
const DEPTH_AT: usize = NODE_COLUMNS + 1;

const NAME_AT: usize = DEPTH_AT + DEPTH_COLUMNS + 1;

const OPERAND_AT: usize = NAME_AT + NAME_COLUMNS + 1;

const END_AT: usize = OPERAND_AT + OPERAND_COLUMNS + 1;

pub(crate) const LINE_BYTES: usize = END_AT + END_COLUMNS + 1;

// The node, its depth, its kind's name, its operand and its end, the first node after its descendants.
pub(crate) fn put_line(page: &mut [u8], work: &[u64], node: usize, depth: usize, end: usize)
    requires most_nodes_in_bounds { most_nodes ≤ length work.now }
    requires line_bytes_in_bounds { line_bytes * node + line_bytes ≤ length page.old }
    requires some_line { SomeLine work.now node depth end }
    ensures { LinePut work.now node depth end page.old page.new }
{
    let at = LINE_BYTES * node;
    put_number(page, at, NODE_COLUMNS, node, b' ');
    put_number(page, at + DEPTH_AT, DEPTH_COLUMNS, depth, b' ');
    put_name(page, at + NAME_AT, node_kind(work, node));
    put_number(
        page,
        at + OPERAND_AT,
        OPERAND_COLUMNS,
        operand(work, node),
        b' ',
    );
    put_number(page, at + END_AT, END_COLUMNS, end, b'\n');
}
