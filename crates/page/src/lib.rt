// The tree on the contract's annex page, one node a line, from the reader's answers alone.
#![tactic(auto)]

mod line;
mod names;
mod text;

ghost use Rattle.std.specs.Prelude.{◌*◌, ◌≤◌, length};
ghost use Rattle.rules.specs.paper.Limits.{most_nodes};
ghost use Rattle.rules.specs.paper.Tree.{Root};
ghost use Rattle.reader.specs.Stored.{RootAt};
ghost use Rattle.page.specs.Page.{line_bytes};
ghost use Rattle.page.specs.Forest.{SomeTrees};
ghost use Rattle.page.specs.Writing.{TreesPut, PagePut};

use crate::line::put_line;
use reader::end;

// How many bytes a line has: 30 columns and a newline.
pub const LINE_BYTES: usize = line::LINE_BYTES;

// The lines of the trees that stand one after the other from a node up to another one, all roots of this depth. A node's children stand
// between it and its end, one deeper.
fn put_trees(page: &mut [u8], work: &[u64], first: usize, next: usize, depth: usize)
    requires most_nodes_in_bounds { most_nodes ≤ length work.now }
    requires next_in_bounds { line_bytes * next ≤ length page.old }
    requires some_trees { SomeTrees work.now depth first next }
    ensures { TreesPut work.now depth first next page.old page.new }
{
    let mut node = first;
    while node < next {
        let child = node + 1;
        let after = end(work, node);
        put_line(page, work, node, depth, after);
        put_trees(page, work, child, after, depth + 1);
        node = after;
    }
}

// The page of the tree of so many nodes that stands in the work words: the first bytes, a line for each node; the bytes beyond are kept.
pub fn put_page(page: &mut [u8], work: &[u64], nodes: usize)
    requires most_nodes_in_bounds { most_nodes ≤ length work.now }
    requires nodes_in_bounds { line_bytes * nodes ≤ length page.old }
    requires root_at { (t : Root) × RootAt work.now nodes t }
    ensures { PagePut work.now nodes page.old page.new }
{
    put_trees(page, work, 0, nodes, 1);
}
