// The rules of declarations, and of what a Bind binds.
ghost use Rattle.std.specs.Prelude.{◌≡◌, List, ℕ, get_or};
ghost use Rattle.rules.specs.paper.Kinds.{kind_number};
ghost use Rattle.rules.specs.declared.kinds.Kind.TheVariants.{Declaration as declaration_kind};
ghost use Rattle.rules.specs.paper.Tree.{Expression, Formal, Block, Declaration, Bind, DSeq, Bound};
ghost use Rattle.rules.specs.paper.States.{declaration, reference, abstraction};
ghost use Rattle.reader.specs.Pack.{packed_kind};
ghost use Rattle.machine.specs.Steps.{Applicable, Steps};

use machine::Machine;
use machine::layout::{BIND_MARK, CLOSURE_UNIT, DSEQ_EXTEND_MARK, DSEQ_JOIN_MARK, REF_MARK};
use machine::stacks::{enter, push, put_items};
use reader::{end, operand};
use rules::kinds::DeclarationKind;
use rules::refusals::Reason;

// Bind: its name, the value, the mark.
fn bind(work: &mut [u64], m: Machine, node: usize) -> Result<Machine, Reason>
    requires { (x : ℕ) × (b : Bound) × Applicable work.old m node (declaration (Bind node x b)) }
    ensures { (x : ℕ) (b : Bound) → Steps work.old m node (declaration (Bind node x b)) result work.new }
{
    let name = operand(work, node);
    enter(work, m, name as u64, BIND_MARK, node as u64 + 1)
}

// DSeq: the first declaration, the first mark, the second declaration, the second mark.
fn declaration_sequence(work: &mut [u64], m: Machine, node: usize) -> Result<Machine, Reason>
    requires { (d₁ d₂ : Declaration) × Applicable work.old m node (declaration (DSeq node d₁ d₂)) }
    ensures { (d₁ d₂ : Declaration) → Steps work.old m node (declaration (DSeq node d₁ d₂)) result work.new }
{
    let second = end(work, node + 1);
    put_items(
        work,
        m,
        [
            DSEQ_JOIN_MARK,
            second as u64,
            DSEQ_EXTEND_MARK,
            node as u64 + 1,
        ],
    )
}

// Ref: the value, the mark.
pub fn reference(work: &mut [u64], m: Machine, node: usize) -> Result<Machine, Reason>
    requires { (p : ℕ) × (e : Expression) × Applicable work.old m node (reference p e) }
    ensures { (p : ℕ) (e : Expression) → Steps work.old m node (reference p e) result work.new }
{
    put_items(work, m, [REF_MARK, node as u64 + 1])
}

// Abs: the closure of its Formals, its Blk and the environment.
pub fn close(work: &mut [u64], m: Machine, node: usize) -> Result<Machine, Reason>
    requires { (p : ℕ) × (fs : List Formal) × (b : Block) × Applicable work.old m node (abstraction p fs b) }
    ensures { (p : ℕ) (fs : List Formal) (b : Block) → Steps work.old m node (abstraction p fs b) result work.new }
{
    push(
        work,
        m,
        0,
        node as u64 + CLOSURE_UNIT * m.environment as u64,
    )
}

// The rule of a declaration, by its kind.
pub fn declaration_rule(
    work: &mut [u64],
    m: Machine,
    node: usize,
    which: DeclarationKind,
) -> Result<Machine, Reason>
    requires which_value { kind_number (declaration_kind which) ≡ packed_kind (get_or work.old node 0) }
    requires applicable { (d : Declaration) × Applicable work.old m node (declaration d) }
    ensures { (d : Declaration) → Steps work.old m node (declaration d) result work.new }
{
    match which {
        DeclarationKind::Bind => bind(work, m, node),
        DeclarationKind::DSeq => declaration_sequence(work, m, node),
    }
}
