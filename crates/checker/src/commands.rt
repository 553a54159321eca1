// Commands, declarations and what they bind: scope and types.
ghost use Rattle.std.specs.Prelude.{List, ℕ, ◌≤◌, length};
ghost use Rattle.rules.specs.paper.Limits.{most_parameters};
ghost use Rattle.rules.specs.paper.Tree.{Expression, Formal, Command, Cond, Block, Declaration, Bound};
ghost use Rattle.rules.specs.paper.Checker.{Scope};
ghost use Rattle.typing.specs.Rows.{rows_end, ScopeAt};
ghost use Rattle.checker.specs.Commands.{WritesRowsFrom, ActualsAt, FormalsAt, AssignAt, CallAt, CommandAt, BlockAt, DeclarationAt, BoundAt, ActualsJudgedAt, AgreementJudgedAt, AssignJudgedAt, CallJudgedAt, CommandJudgedAt, ConditionalJudgedAt, BlockJudgedAt, DeclarationJudgedAt, BoundJudgedAt};

use crate::formals::formals;
use reader::{NAMES, end, node_kind, operand};
use rules::kinds::{CommandKind, DeclarationKind, Kind};
use rules::refusals::{Refusal, Refused};
use typing::codes::{CODES, assigned_code, location_code, same};
use typing::expressions::expression;
use typing::scope::{FUNCTION, ROWS, lookup, meaning, row_word, shares_name};

// Assign.
fn assignment(work: &[u64], registers: usize, scope: usize, node: usize) -> Result<(), Refused>
    requires rows_end_in_bounds { rows_end ≤ length work.now }
    requires scope_at { (Γ : Scope) × ScopeAt work.now registers scope Γ }
    requires assign_at { (x : ℕ) × (e : Expression) × AssignAt work.now node x e }
    ensures { AssignJudgedAt work.now registers scope node result }
{
    let code = expression(work, registers, scope, node + 1)?;
    let name = operand(work, node);
    let number = meaning(work, registers, scope, node, name)?;
    let wanted = assigned_code(node, number)?;
    same(node, wanted, code)
}

// A Call's actuals: their codes packed in one number, or the first fault among them.
fn actuals(
    work: &[u64],
    registers: usize,
    scope: usize,
    node: usize,
    count: usize,
) -> Result<usize, Refused>
    requires rows_end_in_bounds { rows_end ≤ length work.now }
    requires few { count ≤ most_parameters }
    requires scope_at { (Γ : Scope) × ScopeAt work.now registers scope Γ }
    requires actuals_at { (es : List Expression) × ActualsAt work.now node count es }
    ensures { ActualsJudgedAt work.now registers scope node count result }
{
    let mut codes = 0;
    let mut at = node;
    for _ in 0..count {
        let code = expression(work, registers, scope, at)?;
        codes = codes * CODES + code;
        at = end(work, at);
    }
    Ok(codes)
}

// The actuals' codes, which are given packed, against those of the Formals from a node on.
fn agreement(
    work: &[u64],
    place: usize,
    given: usize,
    formal: usize,
    count: usize,
) -> Result<(), Refused>
    requires rows_end_in_bounds { rows_end ≤ length work.now }
    requires few { count ≤ most_parameters }
    requires formals_at { (fs : List Formal) × FormalsAt work.now formal count fs }
    ensures { AgreementJudgedAt work.now place given formal count result }
{
    let mut wanted = 0;
    for at in formal..formal + count {
        wanted = wanted * CODES + operand(work, at) / NAMES;
    }
    same(place, wanted, given)
}

// Call.
fn call(work: &[u64], registers: usize, scope: usize, node: usize) -> Result<(), Refused>
    requires rows_end_in_bounds { rows_end ≤ length work.now }
    requires scope_at { (Γ : Scope) × ScopeAt work.now registers scope Γ }
    requires call_at { (x : ℕ) × (es : List Expression) × CallAt work.now node x es }
    ensures { CallJudgedAt work.now registers scope node result }
{
    let word = operand(work, node);
    let count = word / NAMES;
    let codes = actuals(work, registers, scope, node + 1, count)?;
    let Some(found) = lookup(work, registers, scope, word % NAMES) else {
        return Err(Refused {
            refusal: Refusal::Unbound,
            place: node,
        });
    };
    if found.meaning != FUNCTION || operand(work, found.pointer) != count {
        return Err(Refused {
            refusal: Refusal::BadCall,
            place: node,
        });
    }
    agreement(work, node, codes, found.pointer + 1, count)
}

// The command at a node in the scope at a pointer: fine, or its first fault.
#[cycle(judgement)]
pub(crate) fn command(
    work: &mut [u64],
    registers: usize,
    scope: usize,
    node: usize,
) -> Result<(), Refused>
    requires rows_end_in_bounds { rows_end ≤ length work.old }
    requires scope_low { scope ≤ node }
    requires scope_at { (Γ : Scope) × ScopeAt work.old registers scope Γ }
    requires command_at { (c : Command) × CommandAt work.old node c }
    ensures command_judged_at { CommandJudgedAt work.old registers scope node result }
    ensures writes_rows_from { WritesRowsFrom work.old work.new node }
{
    match node_kind(work, node) {
        Kind::Command(CommandKind::Assign) => assignment(work, registers, scope, node),
        Kind::Command(CommandKind::Blk) => {
            block(work, registers, scope, node)?;
            Ok(())
        }
        Kind::Command(CommandKind::Call) => call(work, registers, scope, node),
        Kind::Command(CommandKind::Loop) => {
            let code = expression(work, registers, scope, node + 1)?;
            let inside = end(work, node + 1);
            command(work, registers, scope, inside)?;
            same(node, 1, code)
        }
        Kind::Command(CommandKind::Cond) => {
            conditional(work, registers, scope, node)?;
            Ok(())
        }
        Kind::Command(CommandKind::CSeq) => {
            command(work, registers, scope, node + 1)?;
            let after = end(work, node + 1);
            command(work, registers, scope, after)?;
            Ok(())
        }
        _ => unreachable!(),
    }
}

// The Cond at a node: its test, then both commands, taken or not; that the test is a truth is judged last.
#[cycle(judgement)]
fn conditional(work: &mut [u64], registers: usize, scope: usize, node: usize) -> Result<(), Refused>
    requires rows_end_in_bounds { rows_end ≤ length work.old }
    requires scope_low { scope ≤ node }
    requires scope_at { (Γ : Scope) × ScopeAt work.old registers scope Γ }
    requires command_at { (e : Expression) × (c₁ : Command) × (c₂ : Command) × CommandAt work.old node (Cond node e c₁ c₂) }
    ensures conditional_judged_at { ConditionalJudgedAt work.old registers scope node result }
    ensures writes_rows_from { WritesRowsFrom work.old work.new node }
{
    let code = expression(work, registers, scope, node + 1)?;
    let where_true = end(work, node + 1);
    command(work, registers, scope, where_true)?;
    let where_false = end(work, where_true);
    command(work, registers, scope, where_false)?;
    same(node, 1, code)
}

// The block at a node: its declaration, then its command in the scope with the names that this gives. It becomes a part of its callers:
// so each level of a tree of blocks has one frame on the stack.
#[inline(always)]
#[cycle(judgement)]
fn block(work: &mut [u64], registers: usize, scope: usize, node: usize) -> Result<(), Refused>
    requires rows_end_in_bounds { rows_end ≤ length work.old }
    requires scope_low { scope ≤ node }
    requires scope_at { (Γ : Scope) × ScopeAt work.old registers scope Γ }
    requires block_at { (b : Block) × BlockAt work.old node b }
    ensures block_judged_at { BlockJudgedAt work.old registers scope node result }
    ensures writes_rows_from { WritesRowsFrom work.old work.new node }
{
    let inner = declaration(work, registers, scope, node + 1)?;
    let inside = end(work, node + 1);
    command(work, registers, inner, inside)?;
    Ok(())
}

// The declaration at a node in the scope at a pointer: rows for its names, linked to that scope, and the pointer of the newest. So the
// second declaration of a DSeq sees the names of the first.
#[cycle(judgement)]
fn declaration(
    work: &mut [u64],
    registers: usize,
    scope: usize,
    node: usize,
) -> Result<usize, Refused>
    requires rows_end_in_bounds { rows_end ≤ length work.old }
    requires scope_low { scope ≤ node }
    requires scope_at { (Γ : Scope) × ScopeAt work.old registers scope Γ }
    requires declaration_at { (d : Declaration) × (next : ℕ) × DeclarationAt work.old node next d }
    ensures declaration_judged_at { DeclarationJudgedAt work.old work.new registers scope node result }
    ensures writes_rows_from { WritesRowsFrom work.old work.new node }
{
    match node_kind(work, node) {
        Kind::Declaration(DeclarationKind::DSeq) => {
            let middle = declaration(work, registers, scope, node + 1)?;
            let after = end(work, node + 1);
            let newest = declaration(work, registers, middle, after)?;
            if shares_name(work, newest, middle, scope) {
                return Err(Refused {
                    refusal: Refusal::Repeated,
                    place: node,
                });
            }
            Ok(newest)
        }
        Kind::Declaration(DeclarationKind::Bind) => {
            let name = operand(work, node);
            let number = bound(work, registers, scope, node + 1)?;
            work[ROWS + node] = row_word(name, number, scope);
            Ok(node + 1)
        }
        _ => unreachable!(),
    }
}

// What a Bind's child means.
#[cycle(judgement)]
fn bound(work: &mut [u64], registers: usize, scope: usize, node: usize) -> Result<usize, Refused>
    requires rows_end_in_bounds { rows_end ≤ length work.old }
    requires scope_low { scope ≤ node }
    requires scope_at { (Γ : Scope) × ScopeAt work.old registers scope Γ }
    requires bound_at { (b : Bound) × BoundAt work.old node b }
    ensures bound_judged_at { BoundJudgedAt work.old registers scope node result }
    ensures writes_rows_from { WritesRowsFrom work.old work.new node }
{
    match node_kind(work, node) {
        Kind::Ref => {
            let code = expression(work, registers, scope, node + 1)?;
            location_code(node, code)
        }
        Kind::Abs => {
            let count = operand(work, node);
            let inner = formals(work, scope, node + 1, count)?;
            block(work, registers, inner, node + 1 + count)?;
            Ok(FUNCTION)
        }
        _ => {
            let code = expression(work, registers, scope, node)?;
            Ok(code)
        }
    }
}
