// Needs, and how they are put together: every number stops at one more than the most steps that are given.
ghost use Rattle.std.specs.Prelude.{◌≡◌, ◌+◌};
ghost use Rattle.estimator.specs.Figures.{stopped, numbers, one_step, raised, both_in_turn, larger_of, unary_figures, binary_figures, tested_figures, sequence_figures, scoped_figures, called_figures};

// The most steps that are given as a figure.
pub const MOST_STEPS: u32 = 1000000;

// Where every sum stops.
const STOP: u32 = MOST_STEPS + 1;

// How far each size rises over what lies there already, how many steps are made, and how many with both commands of every Cond counted.
#[derive(Clone, Copy, Debug, PartialEq, Eq)]
pub struct Need {
    pub control: u32,
    pub values: u32,
    pub cells: u32,
    pub bindings: u32,
    pub steps: u32,
    pub all_steps: u32,
}

// Both together, as far as every sum goes.
pub(crate) fn sum(first: u32, second: u32) -> u32
    ensures { result ≡ stopped (first + second) }
{
    first.saturating_add(second).min(STOP)
}

// No need.
pub(crate) fn nothing() -> Need
    ensures { result ≡ numbers 0 0 0 0 0 0 }
{
    Need {
        control: 0,
        values: 0,
        cells: 0,
        bindings: 0,
        steps: 0,
        all_steps: 0,
    }
}

// One step.
pub(crate) fn step(control: u32, values: u32, cells: u32, bindings: u32) -> Need
    ensures { result ≡ one_step control values cells bindings }
{
    Need {
        control,
        values,
        cells,
        bindings,
        steps: 1,
        all_steps: 1,
    }
}

// A need over what lies under it.
pub(crate) fn over(need: Need, control: u32, values: u32, cells: u32, bindings: u32) -> Need
    ensures { result ≡ raised need control values cells bindings }
{
    Need {
        control: sum(need.control, control),
        values: sum(need.values, values),
        cells: sum(need.cells, cells),
        bindings: sum(need.bindings, bindings),
        steps: need.steps,
        all_steps: need.all_steps,
    }
}

// One need after the other.
pub(crate) fn in_turn(first: Need, second: Need) -> Need
    ensures { result ≡ both_in_turn first second }
{
    Need {
        control: first.control.max(second.control),
        values: first.values.max(second.values),
        cells: first.cells.max(second.cells),
        bindings: first.bindings.max(second.bindings),
        steps: sum(first.steps, second.steps),
        all_steps: sum(first.all_steps, second.all_steps),
    }
}

// One need or the other: the larger of each, and all steps of both.
pub(crate) fn either(first: Need, second: Need) -> Need
    ensures { result ≡ larger_of first second }
{
    let steps = first.steps.max(second.steps);
    let all_steps = sum(first.all_steps, second.all_steps);
    Need {
        control: first.control.max(second.control),
        values: first.values.max(second.values),
        cells: first.cells.max(second.cells),
        bindings: first.bindings.max(second.bindings),
        steps,
        all_steps,
    }
}

// A node with one child: its step, the child over the mark and so many entries of the value stack, and the mark.
pub(crate) fn unary(child: Need, under: u32, values: u32, cells: u32, bindings: u32) -> Need
    ensures { result ≡ unary_figures child under values cells bindings }
{
    let mark = step(1, values, cells, bindings);
    let raised = over(child, 1, under, 0, 0);
    let rest = in_turn(raised, mark);
    let node = step(1, 0, 0, 0);
    in_turn(node, rest)
}

// A binary operator.
pub(crate) fn binary(first: Need, second: Need) -> Need
    ensures { result ≡ binary_figures first second }
{
    let mark = step(1, 2, 0, 0);
    let later = over(second, 1, 1, 0, 0);
    let ending = in_turn(later, mark);
    let sooner = over(first, 2, 0, 0, 0);
    let rest = in_turn(sooner, ending);
    let node = step(1, 0, 0, 0);
    in_turn(node, rest)
}

// A Loop or Cond: its step, the test over the mark and the node, the mark, and what follows.
pub(crate) fn tested(test: Need, body: Need) -> Need
    ensures { result ≡ tested_figures test body }
{
    let mark = step(1, 2, 0, 0);
    let ending = in_turn(mark, body);
    let running = over(test, 1, 1, 0, 0);
    let rest = in_turn(running, ending);
    let node = step(1, 0, 0, 0);
    in_turn(node, rest)
}

// A CSeq.
pub(crate) fn sequence(first: Need, second: Need) -> Need
    ensures { result ≡ sequence_figures first second }
{
    let sooner = over(first, 1, 0, 0, 0);
    let rest = in_turn(sooner, second);
    let node = step(1, 0, 0, 0);
    in_turn(node, rest)
}

// A Blk or DSeq: a declaration, its mark, what runs over what it left, and the last mark.
pub(crate) fn scoped(
    declared: Need,
    under: u32,
    inner: Need,
    values: u32,
    cells: u32,
    bindings: u32,
) -> Need
    ensures { result ≡ scoped_figures declared under inner values cells bindings }
{
    let last = step(1, values, cells, bindings);
    let inside = over(inner, 1, 2, declared.cells, declared.bindings);
    let ending = in_turn(inside, last);
    let mark = step(3, 2, declared.cells, declared.bindings);
    let after = in_turn(mark, ending);
    let raised = over(declared, 3, under, 0, 0);
    let rest = in_turn(raised, after);
    let node = step(1, 0, 0, 0);
    in_turn(node, rest)
}

// A Call of so many actuals, and the function's Blk.
pub(crate) fn called(actuals: Need, count: u32, function: Need) -> Need
    ensures { result ≡ called_figures actuals count function }
{
    let left = step(1, 2, 0, count);
    let inside = over(function, 1, 2, 0, count);
    let ending = in_turn(inside, left);
    let mark = step(1, count, 0, 0);
    let after = in_turn(mark, ending);
    let raised = over(actuals, 1, 0, 0, 0);
    let rest = in_turn(raised, after);
    let node = step(1, 0, 0, 0);
    in_turn(node, rest)
}
