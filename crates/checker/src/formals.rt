// The Formals of an Abs: a row for each, unless a name comes twice.
ghost use Rattle.std.specs.Prelude.{List, ◌+◌, ◌≤◌, length};
ghost use Rattle.rules.specs.paper.Limits.{most_nodes};
ghost use Rattle.rules.specs.paper.Tree.{Formal};
ghost use Rattle.typing.specs.Rows.{rows_end};
ghost use Rattle.checker.specs.Commands.{WritesRowsFrom, FormalsAt, FormalsJudgedAt};

use reader::{NAMES, operand};
use rules::refusals::{Refusal, Refused};
use typing::scope::{ROWS, find_row, row_word};

// A row for each Formal from a node on, linked to the scope; a name that comes twice is refused there.
pub(crate) fn formals(
    work: &mut [u64],
    scope: usize,
    node: usize,
    count: usize,
) -> Result<usize, Refused>
    requires rows_end_in_bounds { rows_end ≤ length work.old }
    requires scope_low { scope ≤ node }
    requires end_low { node + count ≤ most_nodes }
    requires formals_at { (fs : List Formal) × FormalsAt work.old node count fs }
    ensures formals_judged_at { FormalsJudgedAt work.old work.new scope scope node count result }
    ensures writes_rows_from { WritesRowsFrom work.old work.new node }
{
    let mut newest = scope;
    for at in node..node + count {
        let word = operand(work, at);
        let name = word % NAMES;
        if find_row(work, newest, scope, name).is_some() {
            return Err(Refused {
                refusal: Refusal::Repeated,
                place: at,
            });
        }
        work[ROWS + at] = row_word(name, word / NAMES, newest);
        newest = at + 1;
    }
    Ok(newest)
}
