// Scope and types of an image that was read: what its root is.
#![tactic(auto)]

mod commands;
mod formals;

ghost use Rattle.std.specs.Prelude.{◌≤◌, length};
ghost use Rattle.rules.specs.paper.Tree.{Root};
ghost use Rattle.reader.specs.Stored.{RootAt};
ghost use Rattle.typing.specs.Rows.{rows_end};
ghost use Rattle.checker.specs.Commands.{WritesRowsFrom, RootJudgedAt};

use crate::commands::command;
use reader::node_kind;
use rules::kinds::{Kind, Passed};
use rules::refusals::Refused;
use typing::expressions::expression;

// The whole tree of so many nodes, with the registers in scope: what the root is, or the first fault. With no node the root is absent, and
// passes as a command.
pub fn root(work: &mut [u64], registers: usize, nodes: usize) -> Result<Passed, Refused>
    requires rows_end_in_bounds { rows_end ≤ length work.old }
    requires root_at { (t : Root) × RootAt work.old nodes t }
    ensures root_judged_at { RootJudgedAt work.old registers nodes result }
    ensures writes_rows_from { WritesRowsFrom work.old work.new 0 }
{
    if nodes == 0 {
        return Ok(Passed::Command);
    }
    match node_kind(work, 0) {
        Kind::Expression(_) => {
            let code = expression(work, registers, 0, 0)?;
            Ok(Passed::Expression(code))
        }
        _ => {
            command(work, registers, 0, 0)?;
            Ok(Passed::Command)
        }
    }
}
