// Expressions, and a call's actuals.
ghost use Rattle.std.specs.Prelude.{◌≤◌, length};
ghost use Rattle.rules.specs.paper.Limits.{most_nodes, most_parameters};
ghost use Rattle.estimator.specs.Answers.{SomeExpression, SomeActuals, ExpressionNeeds, ActualsNeed};

use crate::figures::{Need, binary, in_turn, nothing, over, step, unary};
use reader::{end, node_kind};
use rules::kinds::{ExpressionKind, Kind};

// The need of the expression at a node.
pub(crate) fn expression(work: &[u64], node: usize) -> Need
    requires most_nodes_in_bounds { most_nodes ≤ length work.now }
    requires some_expression { SomeExpression work.now node }
    ensures { ExpressionNeeds work.now node result }
{
    let Kind::Expression(which) = node_kind(work, node) else {
        unreachable!();
    };
    match which {
        ExpressionKind::Binary(_) => {
            let first = expression(work, node + 1);
            let next = end(work, node + 1);
            let second = expression(work, next);
            binary(first, second)
        }
        ExpressionKind::Not => {
            let child = expression(work, node + 1);
            unary(child, 0, 1, 0, 0)
        }
        _ => step(1, 1, 0, 0),
    }
}

// The need of so many actuals from a node on. The last one runs first: each has the earlier ones on control, and the later ones' values on
// the value stack.
pub(crate) fn actuals(work: &[u64], node: usize, count: usize) -> Need
    requires most_nodes_in_bounds { most_nodes ≤ length work.now }
    requires count_le_most_parameters { count ≤ most_parameters }
    requires some_actuals { SomeActuals work.now node count }
    ensures { ActualsNeed work.now node count result }
{
    let mut need = nothing();
    let mut at = node;
    for given in 0..count {
        let one = expression(work, at);
        let raised = over(one, given as u32, (count - 1 - given) as u32, 0, 0);
        need = in_turn(need, raised);
        at = end(work, at);
    }
    need
}
