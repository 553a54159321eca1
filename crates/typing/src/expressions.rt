// Expressions: their codes in a scope.
ghost use Rattle.std.specs.Prelude.{◌≤◌, length};
ghost use Rattle.rules.specs.paper.Tree.{Expression};
ghost use Rattle.rules.specs.paper.Checker.{Scope};
ghost use Rattle.typing.specs.Rows.{rows_end, ScopeAt};
ghost use Rattle.typing.specs.Answers.{ExpressionAt, ExpressionJudgedAt};

use crate::codes::{deref_code, id_code, operator_code, truth, valref_code};
use crate::scope::meaning;
use reader::{end, node_kind, operand};
use rules::kinds::{ExpressionKind, Kind};
use rules::refusals::Refused;

// The code of the expression at a node in the scope at a pointer, or its first fault.
pub fn expression(
    work: &[u64],
    registers: usize,
    scope: usize,
    node: usize,
) -> Result<usize, Refused>
    requires rows_end_in_bounds { rows_end ≤ length work.now }
    requires scope_at { (Γ : Scope) × ScopeAt work.now registers scope Γ }
    requires expression_at { (e : Expression) × ExpressionAt work.now node e }
    ensures { ExpressionJudgedAt work.now registers scope node result }
{
    match node_kind(work, node) {
        Kind::Expression(ExpressionKind::Num) => Ok(0),
        Kind::Expression(ExpressionKind::Boo) => Ok(1),
        Kind::Expression(ExpressionKind::Id) => {
            let number = meaning(work, registers, scope, node, operand(work, node))?;
            id_code(node, number)
        }
        Kind::Expression(ExpressionKind::DeRef) => {
            let number = meaning(work, registers, scope, node, operand(work, node))?;
            deref_code(node, number)
        }
        Kind::Expression(ExpressionKind::ValRef) => {
            let number = meaning(work, registers, scope, node, operand(work, node))?;
            valref_code(node, number)
        }
        Kind::Expression(ExpressionKind::Not) => {
            let code = expression(work, registers, scope, node + 1)?;
            truth(node, 1, code)
        }
        Kind::Expression(ExpressionKind::Binary(operator)) => {
            let first = expression(work, registers, scope, node + 1)?;
            let next = end(work, node + 1);
            let second = expression(work, registers, scope, next)?;
            operator_code(operator, node, first, second)
        }
        _ => unreachable!(),
    }
}
