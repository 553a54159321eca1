// The rules of expressions: a value, or the operands and the mark of the operator.
ghost use Rattle.std.specs.Prelude.{◌≡◌, ◌<◌, Bool, ℕ, length, get_or};
ghost use Rattle.rules.specs.paper.Kinds.{kind_number};
ghost use Rattle.rules.specs.declared.kinds.Kind.TheVariants.{Expression as expression_kind};
ghost use Rattle.rules.specs.paper.Tree.{Expression, Num, Boo, Id, DeRef, ValRef, Binary, Not};
ghost use Rattle.rules.specs.declared.kinds.Operator.{Operator};
ghost use Rattle.rules.specs.paper.States.{expression};
ghost use Rattle.reader.specs.Pack.{packed_kind, packed_operand};
ghost use Rattle.rules.specs.paper.Limits.{most_bindings};
ghost use Rattle.machine.specs.Lookup.{FindsRow};
ghost use Rattle.machine.specs.Regions.{regions, Fits};
ghost use Rattle.machine.specs.Steps.{Applicable, Steps};
ghost use Rattle.expressions.specs.Named.{Named};

use machine::layout::{LABEL_UNIT, MARK, NOT_MARK, ROW_LABELS, ROW_PAYLOADS};
use machine::lookup::row_of;
use machine::memory::{cell_label, cell_payload};
use machine::stacks::{push, put_items};
use machine::{Location, Machine};
use reader::{end, kind, operand};
use rules::kinds::ExpressionKind;
use rules::refusals::Reason;

// Num, Boo: the operand is the value.
fn literal(work: &mut [u64], m: Machine, node: usize) -> Result<Machine, Reason>
    requires fits { Fits work.old m }
    requires in_bounds { node < length work.old }
    ensures number { (k : ℕ) → Steps work.old m node (expression (Num node k)) result work.new }
    ensures truth { (b : Bool) → Steps work.old m node (expression (Boo node b)) result work.new }
{
    let value = operand(work, node);
    push(work, m, 0, value as u64)
}

// The row of the name that an Id, a DeRef or a ValRef looks up.
fn row_named(work: &[u64], m: Machine, node: usize) -> usize
    requires { (x : ℕ) × (e : Expression) × Named node x e × Applicable work.now m node (expression e) }
    ensures within { result < most_bindings }
    ensures found { FindsRow work.now (regions work.now m).rows m.environment (packed_operand (get_or work.now node 0)) result }
{
    let name = operand(work, node);
    row_of(work, m, name as u64)
}

// Id: a plain binding, or the contents of a cell.
fn id(work: &mut [u64], m: Machine, node: usize) -> Result<Machine, Reason>
    requires { (x : ℕ) × Applicable work.old m node (expression (Id node x)) }
    ensures { (x : ℕ) → Steps work.old m node (expression (Id node x)) result work.new }
{
    let row = row_named(work, m, node);
    let bound = work[ROW_PAYLOADS + row];
    if work[ROW_LABELS + row] / LABEL_UNIT % 2 == 0 {
        return push(work, m, 0, bound);
    }
    let label = cell_label(work, Location(bound as usize));
    let payload = cell_payload(work, Location(bound as usize));
    push(work, m, label, payload)
}

// DeRef: the location that the name is bound to.
fn deref(work: &mut [u64], m: Machine, node: usize) -> Result<Machine, Reason>
    requires { (x : ℕ) × Applicable work.old m node (expression (DeRef node x)) }
    ensures { (x : ℕ) → Steps work.old m node (expression (DeRef node x)) result work.new }
{
    let row = row_named(work, m, node);
    let bound = work[ROW_PAYLOADS + row];
    push(work, m, 1, bound)
}

// ValRef: the contents of the cell whose location is in the named cell.
fn valref(work: &mut [u64], m: Machine, node: usize) -> Result<Machine, Reason>
    requires { (x : ℕ) × Applicable work.old m node (expression (ValRef node x)) }
    ensures { (x : ℕ) → Steps work.old m node (expression (ValRef node x)) result work.new }
{
    let row = row_named(work, m, node);
    let bound = work[ROW_PAYLOADS + row];
    let shown = cell_payload(work, Location(bound as usize));
    let label = cell_label(work, Location(shown as usize));
    let payload = cell_payload(work, Location(shown as usize));
    push(work, m, label, payload)
}

// Sum to Or: both operands, then the operator's mark.
fn binary(work: &mut [u64], m: Machine, node: usize) -> Result<Machine, Reason>
    requires { (o : Operator) × (e₁ e₂ : Expression) × Applicable work.old m node (expression (Binary node o e₁ e₂)) }
    ensures { (o : Operator) (e₁ e₂ : Expression) → Steps work.old m node (expression (Binary node o e₁ e₂)) result work.new }
{
    let mark = MARK + kind(work, node) as u64;
    let second = end(work, node + 1);
    put_items(work, m, [mark, second as u64, node as u64 + 1])
}

// Not.
fn negation(work: &mut [u64], m: Machine, node: usize) -> Result<Machine, Reason>
    requires { (e : Expression) × Applicable work.old m node (expression (Not node e)) }
    ensures { (e : Expression) → Steps work.old m node (expression (Not node e)) result work.new }
{
    put_items(work, m, [NOT_MARK, node as u64 + 1])
}

// The rule of an expression, by its kind.
pub fn expression_rule(
    work: &mut [u64],
    m: Machine,
    node: usize,
    which: ExpressionKind,
) -> Result<Machine, Reason>
    requires which_value { kind_number (expression_kind which) ≡ packed_kind (get_or work.old node 0) }
    requires applicable { (e : Expression) × Applicable work.old m node (expression e) }
    ensures { (e : Expression) → Steps work.old m node (expression e) result work.new }
{
    match which {
        ExpressionKind::Num | ExpressionKind::Boo => literal(work, m, node),
        ExpressionKind::Id => id(work, m, node),
        ExpressionKind::DeRef => deref(work, m, node),
        ExpressionKind::ValRef => valref(work, m, node),
        ExpressionKind::Binary(_) => binary(work, m, node),
        ExpressionKind::Not => negation(work, m, node),
    }
}
