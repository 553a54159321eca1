// The judgements on codes alone: what each rule makes of the numbers of meanings and codes.
ghost use Rattle.std.specs.Prelude.{◌≡◌};
ghost use Rattle.rules.specs.paper.Kinds.{operator_number};
ghost use Rattle.rules.specs.declared.kinds.Operator.{Operator};
ghost use Rattle.rules.specs.paper.Checker.{Meaning, id_code, deref_code, valref_code, equals_give, operator_code, truth_only, assignable, same_code, ref_code};
ghost use Rattle.typing.specs.Answers.{mistyped_at, both_give, code_answer, fine_answer, meaning_answer, Numbered};

use reader::kinds;
use rules::kinds::{Arithmetic, Logic, Operator, Order};
use rules::refusals::{Refusal, Refused};

// Type codes are below this; it is the base in which a Call's codes are packed.
pub const CODES: usize = 8;

// The refusal of a code that is not the one that the node asks for.
fn mistyped(node: usize) -> Refused
    ensures { result ≡ mistyped_at node }
{
    Refused {
        refusal: Refusal::Mistyped,
        place: node,
    }
}

// Id.
pub fn id_code(node: usize, number: usize) -> Result<usize, Refused>
    ensures { (m : Meaning) → Numbered number m → result ≡ code_answer (id_code node m) }
{
    if number < 2 {
        return Ok(number);
    }
    if number < CODES {
        return Ok(number - 2);
    }
    Err(mistyped(node))
}

// DeRef.
pub fn deref_code(node: usize, number: usize) -> Result<usize, Refused>
    ensures { (m : Meaning) → Numbered number m → result ≡ code_answer (deref_code node m) }
{
    if number < 2 {
        return Err(mistyped(node));
    }
    if number < CODES {
        return Ok(number);
    }
    Err(mistyped(node))
}

// ValRef.
pub fn valref_code(node: usize, number: usize) -> Result<usize, Refused>
    ensures { (m : Meaning) → Numbered number m → result ≡ code_answer (valref_code node m) }
{
    if number < 4 {
        return Err(mistyped(node));
    }
    if number < CODES {
        return Ok(number - 4);
    }
    Err(mistyped(node))
}

// Both have the code that is wanted: 0 for Sum to Div and Lt to Ge, 1 for And and Or.
fn both(
    node: usize,
    wanted: usize,
    outcome: usize,
    first: usize,
    second: usize,
) -> Result<usize, Refused>
    ensures { result ≡ code_answer (both_give wanted outcome node first second) }
{
    same(node, wanted, first)?;
    same(node, wanted, second)?;
    Ok(outcome)
}

// Both integers or both truth values: Eq.
fn equals(node: usize, first: usize, second: usize) -> Result<usize, Refused>
    ensures { result ≡ code_answer (equals_give node first second) }
{
    if 1 < first {
        return Err(mistyped(node));
    }
    same(node, first, second)?;
    Ok(1)
}

// What an operator gives of two codes.
pub fn operator_code(
    operator: Operator,
    node: usize,
    first: usize,
    second: usize,
) -> Result<usize, Refused>
    ensures { result ≡ code_answer (operator_code operator node first second) }
{
    match operator {
        Operator::Arithmetic(_) => both(node, 0, 0, first, second),
        Operator::Eq => equals(node, first, second),
        Operator::Order(_) => both(node, 0, 1, first, second),
        Operator::Logic(_) => both(node, 1, 1, first, second),
    }
}

// The operator that has a kind's number. Of the numbers that no operator has, those below Eq's go to Div, and those above Or's to Or.
fn operator_of(which: usize) -> Operator
    ensures { (o : Operator) → which ≡ operator_number o → result ≡ o }
{
    match which {
        kinds::SUM => Operator::Arithmetic(Arithmetic::Sum),
        kinds::SUB => Operator::Arithmetic(Arithmetic::Sub),
        kinds::MUL => Operator::Arithmetic(Arithmetic::Mul),
        0..=kinds::DIV => Operator::Arithmetic(Arithmetic::Div),
        kinds::EQ => Operator::Eq,
        kinds::LT => Operator::Order(Order::Lt),
        kinds::LE => Operator::Order(Order::Le),
        kinds::GT => Operator::Order(Order::Gt),
        kinds::GE => Operator::Order(Order::Ge),
        kinds::AND => Operator::Logic(Logic::And),
        _ => Operator::Logic(Logic::Or),
    }
}

// The same of the operator that has a kind's number. It takes any number and asks nothing of it: below Eq's it is taken for arithmetic, above Or's
// for Or.
pub fn operation(which: usize, node: usize, first: usize, second: usize) -> Result<usize, Refused>
    ensures { (o : Operator) → which ≡ operator_number o → result ≡ code_answer (operator_code o node first second) }
{
    operator_code(operator_of(which), node, first, second)
}

// A truth value alone: Not gives 1 of it.
pub fn truth(node: usize, outcome: usize, code: usize) -> Result<usize, Refused>
    ensures { result ≡ code_answer (truth_only node outcome code) }
{
    same(node, 1, code)?;
    Ok(outcome)
}

// Assign: the code of the value that a name of this meaning takes.
pub fn assigned_code(node: usize, number: usize) -> Result<usize, Refused>
    ensures { (m : Meaning) → Numbered number m → result ≡ code_answer (assignable node m) }
{
    match number {
        2 => Ok(0),
        3 => Ok(1),
        _ => Err(Refused {
            refusal: Refusal::NotAssignable,
            place: node,
        }),
    }
}

// The codes have to be the same.
pub fn same(node: usize, wanted: usize, given: usize) -> Result<(), Refused>
    ensures { result ≡ fine_answer (same_code node wanted given) }
{
    if wanted != given {
        return Err(mistyped(node));
    }
    Ok(())
}

// Ref: the code of a location for a value of this code.
pub fn location_code(node: usize, code: usize) -> Result<usize, Refused>
    ensures { result ≡ meaning_answer (ref_code node code) }
{
    if 5 < code {
        return Err(mistyped(node));
    }
    Ok(code + 2)
}
