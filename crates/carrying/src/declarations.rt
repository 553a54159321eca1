// Declarations: a row for each name, and a cell for each Ref.
ghost use Rattle.std.specs.Prelude.{◌≤◌, length};
ghost use Rattle.carrying.specs.Layout.{regions_end};
ghost use Rattle.carrying.specs.Frames.{Keeps, KeepsCells};
ghost use Rattle.carrying.specs.Answers.{SomeDeclaration, SomeBind, DeclarationCarried};

use crate::Held;
use crate::cells::{location, put_cell};
use crate::expressions::expression;
use crate::names::put_row;
use intervals::values::{NUMBERS, Value};
use reader::{end, node_kind, operand};
use rules::kinds::{DeclarationKind, Kind};
use rules::refusals::Refused;

// A Bind. A function is known by the node of its Abs; its names are those below its row.
fn bind(work: &mut [u64], held: Held, node: usize) -> Result<Held, Refused>
    requires regions_end_in_bounds { regions_end ≤ length work.old }
    requires some_bind { SomeBind work.old held node }
    ensures declaration_carried { DeclarationCarried work.old work.new held node result }
    ensures keeps { Keeps work.old work.new held.bindings held.cells }
    ensures keeps_cells { KeepsCells work.old work.new held.cells }
{
    let name = operand(work, node);
    match node_kind(work, node + 1) {
        Kind::Abs => {
            let function = Value {
                sort: NUMBERS,
                low: (node + 1) as u64,
                high: 0,
            };
            put_row(work, held.bindings, name, held.environment, function);
            Ok(held.with_row())
        }
        Kind::Ref => {
            let made = expression(work, held.environment, node + 2)?;
            put_cell(work, held.cells, made);
            put_row(
                work,
                held.bindings,
                name,
                held.environment,
                location(held.cells),
            );
            Ok(held.with_row().with_cell())
        }
        _ => {
            let given = expression(work, held.environment, node + 1)?;
            put_row(work, held.bindings, name, held.environment, given);
            Ok(held.with_row())
        }
    }
}

// The declaration at a node. The second of a DSeq sees the names of the first. A `match` stands where `?` would copy the result byte by byte.
pub fn declaration(work: &mut [u64], held: Held, node: usize) -> Result<Held, Refused>
    requires regions_end_in_bounds { regions_end ≤ length work.old }
    requires some_declaration { SomeDeclaration work.old held node }
    ensures declaration_carried { DeclarationCarried work.old work.new held node result }
    ensures keeps { Keeps work.old work.new held.bindings held.cells }
    ensures keeps_cells { KeepsCells work.old work.new held.cells }
{
    let Kind::Declaration(kind) = node_kind(work, node) else {
        unreachable!();
    };
    match kind {
        DeclarationKind::DSeq => match declaration(work, held, node + 1) {
            Ok(inner) => {
                let after = end(work, node + 1);
                declaration(work, inner, after)
            }
            Err(refused) => Err(refused),
        },
        DeclarationKind::Bind => bind(work, held, node),
    }
}
