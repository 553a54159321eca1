// Expressions over names and cells.
ghost use Rattle.std.specs.Prelude.{◌≡◌, ◌≤◌, length, get_or};
ghost use Rattle.rules.specs.paper.Kinds.{kind_number};
ghost use Rattle.rules.specs.declared.kinds.Kind.TheVariants.{Expression as expression_kind};
ghost use Rattle.reader.specs.Pack.{packed_kind};
ghost use Rattle.carrying.specs.Layout.{regions_end};
ghost use Rattle.carrying.specs.Answers.{Names, SomeLeaf, SomeExpression, LeafCarried, ExpressionCarried};

use crate::cells::contents;
use crate::names::{find, row_value};
use intervals::operators::{apply, negation};
use intervals::values::{LOCATION, NUMBERS, TRUTHS, Value};
use reader::{end, node_kind, operand};
use rules::kinds::{ExpressionKind, Kind};
use rules::refusals::Refused;

// DeRef gives what the name is bound to; Id what its cell holds, where that is a location; ValRef what the cell holds that this one names.
fn named(work: &[u64], environment: usize, node: usize, kind: ExpressionKind) -> Value
    requires regions_end_in_bounds { regions_end ≤ length work.now }
    requires some_leaf { SomeLeaf work.now environment node }
    requires kind_is { kind_number (expression_kind kind) ≡ packed_kind (get_or work.now node 0) }
    requires names { Names kind }
    ensures { LeafCarried work.now environment node result }
{
    let name = operand(work, node);
    let Some(row) = find(work, environment, name) else {
        unreachable!();
    };
    let bound = row_value(work, row);
    if bound.sort != LOCATION {
        return bound;
    }
    match kind {
        ExpressionKind::DeRef => bound,
        ExpressionKind::Id => contents(work, bound.low as usize),
        _ => {
            let held = contents(work, bound.low as usize);
            contents(work, held.low as usize)
        }
    }
}

// Num, Boo, Id, DeRef, ValRef.
fn leaf(work: &[u64], environment: usize, node: usize, kind: ExpressionKind) -> Value
    requires regions_end_in_bounds { regions_end ≤ length work.now }
    requires some_leaf { SomeLeaf work.now environment node }
    requires kind_is { kind_number (expression_kind kind) ≡ packed_kind (get_or work.now node 0) }
    ensures { LeafCarried work.now environment node result }
{
    match kind {
        ExpressionKind::Num => {
            let number = operand(work, node) as u64;
            Value {
                sort: NUMBERS,
                low: number,
                high: number,
            }
        }
        ExpressionKind::Boo => {
            let truth = operand(work, node) as u64;
            Value {
                sort: TRUTHS,
                low: 1 - truth,
                high: truth,
            }
        }
        _ => named(work, environment, node, kind),
    }
}

// The expression at a node, with the names at a pointer.
pub fn expression(work: &[u64], environment: usize, node: usize) -> Result<Value, Refused>
    requires regions_end_in_bounds { regions_end ≤ length work.now }
    requires some_expression { SomeExpression work.now environment node }
    ensures { ExpressionCarried work.now environment node result }
{
    let Kind::Expression(kind) = node_kind(work, node) else {
        unreachable!();
    };
    match kind {
        ExpressionKind::Binary(operator) => {
            let left = expression(work, environment, node + 1)?;
            let next = end(work, node + 1);
            let right = expression(work, environment, next)?;
            apply(operator, node, left, right)
        }
        ExpressionKind::Not => {
            let negated = expression(work, environment, node + 1)?;
            Ok(negation(negated))
        }
        _ => Ok(leaf(work, environment, node, kind)),
    }
}
