// The needs of a routine before it is loaded, from the reader's answers alone.
#![tactic(auto)]

mod commands;
mod expressions;
pub mod figures;
mod names;

ghost use Rattle.std.specs.Prelude.{◌≤◌, length};
ghost use Rattle.rules.specs.paper.Limits.{most_nodes, most_registers};
ghost use Rattle.rules.specs.paper.Tree.{Root};
ghost use Rattle.reader.specs.Stored.{RootAt};
ghost use Rattle.estimator.specs.Entries.{entries_end, WritesEntriesFrom};
ghost use Rattle.estimator.specs.Answers.{RootNeeds, RoutineNeeds, LoopFound};

use crate::commands::command;
use crate::expressions::expression;
use crate::figures::{Need, nothing, over};
use reader::{kind, kinds, node_kind};
use rules::kinds::Kind;

// The need of the root of a tree of so many nodes; with no node the root is absent.
fn root(work: &mut [u64], nodes: usize) -> Need
    requires entries_end_in_bounds { entries_end ≤ length work.old }
    requires root_at { (t : Root) × RootAt work.old nodes t }
    ensures root_needs { RootNeeds work.old nodes result }
    ensures writes_entries_from { WritesEntriesFrom work.old work.new 0 }
{
    if nodes == 0 {
        return nothing();
    }
    match node_kind(work, 0) {
        Kind::Expression(_) => expression(work, 0),
        _ => command(work, 0, 0),
    }
}

// The need of a whole routine: registers count as cells and as bindings.
pub fn routine(work: &mut [u64], registers: usize, nodes: usize) -> Need
    requires entries_end_in_bounds { entries_end ≤ length work.old }
    requires registers_le_most_registers { registers ≤ most_registers }
    requires root_at { (t : Root) × RootAt work.old nodes t }
    ensures routine_needs { RoutineNeeds work.old registers nodes result }
    ensures writes_entries_from { WritesEntriesFrom work.old work.new 0 }
{
    let need = root(work, nodes);
    over(need, 0, 0, registers as u32, registers as u32)
}

// Whether a Loop is among so many nodes. Any words may stand there, and this may ask no more, so that the kinds are asked for as numbers.
pub fn has_loop(work: &[u64], nodes: usize) -> bool
    requires most_nodes_in_bounds { most_nodes ≤ length work.now }
    requires nodes_le_most_nodes { nodes ≤ most_nodes }
    ensures { LoopFound work.now nodes result }
{
    (0..nodes).any(|node| kind(work, node) == kinds::LOOP)
}
