// Commands and declarations.
ghost use Rattle.std.specs.Prelude.{◌≤◌, length};
ghost use Rattle.rules.specs.paper.Needs.{Needs};
ghost use Rattle.estimator.specs.Entries.{entries_end, WritesEntriesFrom, NamesAt};
ghost use Rattle.estimator.specs.Answers.{SomeFormals, SomeCall, SomeCommand, SomeDeclaration, FormalsNamed, CallNeeds, CommandNeeds, DeclarationNeeds};

use crate::expressions::{actuals, expression};
use crate::figures::{
    Need, called, either, nothing, over, scoped, sequence, step, sum, tested, unary,
};
use crate::names::{keep, need_of};
use reader::{NAMES, end, node_kind, operand};
use rules::kinds::{CommandKind, DeclarationKind, Kind};

// A declaration's need, and the pointer of its newest name.
#[derive(Clone, Copy, Debug, PartialEq, Eq)]
pub(crate) struct Declared {
    pub need: Need,
    pub newest: usize,
}

// An entry for each of so many Formals from a node on, without a need, and the pointer of the newest.
fn formals(work: &mut [u64], scope: usize, node: usize, count: usize) -> usize
    requires entries_end_in_bounds { entries_end ≤ length work.old }
    requires scope_le_node { scope ≤ node }
    requires names_at { (N : Needs) × NamesAt work.old scope N }
    requires some_formals { SomeFormals work.old node count }
    ensures formals_named { FormalsNamed work.old work.new scope node count result }
    ensures writes_entries_from { WritesEntriesFrom work.old work.new node }
{
    let mut newest = scope;
    for formal in node..node + count {
        let word = operand(work, formal);
        keep(work, formal, word % NAMES, newest, nothing());
        newest = formal + 1;
    }
    newest
}

// A Call.
fn call(work: &[u64], scope: usize, node: usize) -> Need
    requires entries_end_in_bounds { entries_end ≤ length work.now }
    requires names_at { (N : Needs) × NamesAt work.now scope N }
    requires some_call { SomeCall work.now node }
    ensures { CallNeeds work.now scope node result }
{
    let word = operand(work, node);
    let count = word / NAMES;
    let given = actuals(work, node + 1, count);
    let function = need_of(work, scope, word % NAMES);
    called(given, count as u32, function)
}

// The need of the command at a node in the scope at a pointer. Each level of the tree has this frame on the stack, so the needs of its parts
// stand in the same locals whatever it is, and an Assign's value is asked for where a test is: with locals of its own in each arm of one match
// `pi_needs` was measured at 30,623 bytes of stack, and the C header leaves 26,624.
#[cycle(needs)]
pub(crate) fn command(work: &mut [u64], scope: usize, node: usize) -> Need
    requires entries_end_in_bounds { entries_end ≤ length work.old }
    requires scope_le_node { scope ≤ node }
    requires names_at { (N : Needs) × NamesAt work.old scope N }
    requires some_command { SomeCommand work.old node }
    ensures command_needs { CommandNeeds work.old scope node result }
    ensures writes_entries_from { WritesEntriesFrom work.old work.new node }
{
    let mut first = nothing();
    let mut second = nothing();
    let Kind::Command(which) = node_kind(work, node) else {
        unreachable!();
    };
    if let CommandKind::Call = which {
        return call(work, scope, node);
    }
    if let CommandKind::Blk = which {
        let declared = declaration(work, scope, node + 1);
        let inside = end(work, node + 1);
        second = command(work, declared.newest, inside);
        let cells = declared.need.cells;
        let bindings = declared.need.bindings;
        return scoped(declared.need, 1, second, 2, cells, bindings);
    }
    if let CommandKind::CSeq = which {
        first = command(work, scope, node + 1);
        let after = end(work, node + 1);
        second = command(work, scope, after);
        return sequence(first, second);
    }
    let value = expression(work, node + 1);
    if let CommandKind::Assign = which {
        return unary(value, 1, 2, 0, 0);
    }
    let where_true = end(work, node + 1);
    first = command(work, scope, where_true);
    if let CommandKind::Loop = which {
        let turn = over(first, 1, 0, 0, 0);
        return tested(value, turn);
    }
    let where_false = end(work, where_true);
    second = command(work, scope, where_false);
    let larger = either(first, second);
    tested(value, larger)
}

// The need of the declaration at a node in the scope at a pointer, and entries for its names. A function's need is worked out here, once.
#[cycle(needs)]
fn declaration(work: &mut [u64], scope: usize, node: usize) -> Declared
    requires entries_end_in_bounds { entries_end ≤ length work.old }
    requires scope_le_node { scope ≤ node }
    requires names_at { (N : Needs) × NamesAt work.old scope N }
    requires some_declaration { SomeDeclaration work.old node }
    ensures declaration_needs { DeclarationNeeds work.old work.new scope node result }
    ensures writes_entries_from { WritesEntriesFrom work.old work.new node }
{
    let Kind::Declaration(which) = node_kind(work, node) else {
        unreachable!();
    };
    if let DeclarationKind::DSeq = which {
        let first = declaration(work, scope, node + 1);
        let after = end(work, node + 1);
        let second = declaration(work, first.newest, after);
        let cells = sum(second.need.cells, first.need.cells);
        let bindings = sum(second.need.bindings, first.need.bindings);
        let need = scoped(first.need, 0, second.need, 3, cells, bindings);
        return Declared {
            need,
            newest: second.newest,
        };
    }
    let name = operand(work, node);
    match node_kind(work, node + 1) {
        Kind::Abs => {
            let count = operand(work, node + 1);
            let inner = formals(work, scope, node + 2, count);
            let function = command(work, inner, node + 2 + count);
            keep(work, node, name, scope, function);
            let closure = step(1, 1, 0, 0);
            let need = unary(closure, 1, 2, 0, 1);
            Declared {
                need,
                newest: node + 1,
            }
        }
        Kind::Ref => {
            keep(work, node, name, scope, nothing());
            let value = expression(work, node + 2);
            let reference = unary(value, 0, 1, 1, 0);
            let need = unary(reference, 1, 2, 1, 1);
            Declared {
                need,
                newest: node + 1,
            }
        }
        _ => {
            keep(work, node, name, scope, nothing());
            let value = expression(work, node + 1);
            let need = unary(value, 1, 2, 0, 1);
            Declared {
                need,
                newest: node + 1,
            }
        }
    }
}
