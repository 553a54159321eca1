// From the image's words to the shape: each node's checks in the paper's order and, for a whole tree, one work word a node.
#![tactic(auto)]

pub mod kinds;
mod tables;

ghost use Rattle.std.specs.Prelude.{◌≡◌, ◌<◌, ◌≤◌, length, drop, get_or};
ghost use Rattle.rules.specs.paper.Limits.{most_nodes, most_depth};
ghost use Rattle.rules.specs.paper.Reader.{size_fits, read};
ghost use Rattle.rules.specs.paper.Kinds.{kind_number};
ghost use Rattle.reader.specs.Scan.{scan};
ghost use Rattle.reader.specs.Pack.{pack, packed_kind, packed_operand, packed_end};
ghost use Rattle.reader.specs.Answers.{nodes_at, Readable, Outcome, ShapeAnswer};
ghost use Rattle.reader.specs.NodeKinds.{Known};

use rules::kinds::{Kind, Sort};
use rules::refusals::{Refusal, Refused};

// The paper's limits of an image: how many nodes and how many registers it has at most.
pub const MOST_NODES: usize = 2000;

pub const MOST_REGISTERS: usize = 16;

// How many names there are: a name is the low part of an operand that has a count or a code too.
pub const NAMES: usize = tables::NAMES as usize;

// How many nodes and how many registers an image has.
#[derive(Clone, Copy, Debug, PartialEq, Eq)]
pub struct Shape {
    pub nodes: usize,
    pub registers: usize,
}

// The fields of a node's word, the lowest first: the kind, the end, the operand (specs/Pack.antt).
const KIND_BITS: u64 = 16;

const END_BITS: u64 = 16;

const END_UNIT: u64 = 1 << KIND_BITS;

const ENDS_ROOM: u64 = 1 << END_BITS;

const OPERAND_UNIT: u64 = END_UNIT * ENDS_ROOM;

// How deep a tree may be.
const MOST_DEPTH: usize = 64;

// The word of a node: its kind, the first node after its descendants, and its operand, each in its field.
fn node_word(kind: u16, operand: u32, end: u16) -> u64
    ensures { result ≡ pack kind operand end }
{
    kind as u64 + END_UNIT * (end as u64) + OPERAND_UNIT * (operand as u64)
}

// A node with its descendants, with this many levels of depth left for it: the first node after them.
fn read_node(
    work: &mut [u64],
    image: &[u32],
    n: usize,
    at: usize,
    sort: Sort,
    levels: usize,
) -> Result<usize, Refused>
    requires readable { Readable work.old image.now n at }
    requires levels_left { levels ≤ most_depth }
    ensures { Outcome (nodes_at image.now n) n at (scan levels sort at (drop at (nodes_at image.now n))) result work.old work.new }
{
    if n <= at {
        return Err(Refused {
            refusal: Refusal::Tree,
            place: at,
        });
    }
    let number = image[2 + at];
    let operand = image[2 + n + at];
    let row = tables::passing(number as u64, operand as u64, sort, at)?;
    if levels == 0 {
        return Err(Refused {
            refusal: Refusal::Depth,
            place: at,
        });
    }
    let mut end = at + 1;
    let children = row.children(operand as u64);
    for index in 0..children.count() {
        end = read_node(work, image, n, end, children.sort(index), levels - 1)?;
    }
    work[at] = node_word(number as u16, operand, end as u16);
    Ok(end)
}

// Whether an image can have this many nodes and registers.
pub fn size_fits(n: usize, registers: usize) -> bool
    ensures { result ≡ size_fits n registers }
{
    n <= MOST_NODES && registers <= MOST_REGISTERS
}

// The whole image: its shape, with a work word for each node (none where the root is absent); or the first refusal, and then the first 2,000
// work words are spoilt.
pub fn read_image(work: &mut [u64], image: &[u32]) -> Result<Shape, Refused>
    requires { most_nodes ≤ length work.old }
    ensures { ShapeAnswer (read image.now) result work.old work.new }
{
    if image.len() < 2 {
        return Err(Refused {
            refusal: Refusal::Length,
            place: 0,
        });
    }
    let n = image[0] as usize;
    let registers = image[1] as usize;
    if !size_fits(n, registers) {
        return Err(Refused {
            refusal: Refusal::Size,
            place: 0,
        });
    }
    if image.len() != 2 + 2 * n {
        return Err(Refused {
            refusal: Refusal::Length,
            place: 0,
        });
    }
    if n != 0 {
        let end = read_node(work, image, n, 0, Sort::Root, MOST_DEPTH)?;
        if end != n {
            return Err(Refused {
                refusal: Refusal::Tree,
                place: end,
            });
        }
    }
    Ok(Shape {
        nodes: n,
        registers,
    })
}

// The reader's answers about a node that was read: its kind, its operand, and the first node after its descendants.
pub fn kind(work: &[u64], node: usize) -> usize
    requires { node < length work.now }
    ensures { result ≡ packed_kind (get_or work.now node 0) }
{
    (work[node] % END_UNIT) as usize
}

pub fn operand(work: &[u64], node: usize) -> usize
    requires { node < length work.now }
    ensures { result ≡ packed_operand (get_or work.now node 0) }
{
    (work[node] / OPERAND_UNIT) as usize
}

pub fn end(work: &[u64], node: usize) -> usize
    requires { node < length work.now }
    ensures { result ≡ packed_end (get_or work.now node 0) }
{
    (work[node] / END_UNIT % ENDS_ROOM) as usize
}

// The kind of a node whose word has the number of one.
#[inline(always)]
pub fn node_kind(work: &[u64], node: usize) -> Kind
    requires in_bounds { node < length work.now }
    requires known { Known (get_or work.now node 0) }
    ensures { kind_number result ≡ packed_kind (get_or work.now node 0) }
{
    match tables::kind_of(work[node] % END_UNIT) {
        Some(kind) => kind,
        None => unreachable!(),
    }
}
