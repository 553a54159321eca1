// The lines of an answer: the outcome, the steps, the high marks and the registers.
ghost use Rattle.std.specs.Prelude.{◌≡◌, ◌++◌, ◌+◌, ◌≤◌, ◌<◌, length};
ghost use Rattle.rules.specs.paper.Limits.{most_registers};
ghost use Rattle.answer.specs.Sizes.{outcome_bytes, register_line_bytes, steps_bytes, marks_bytes, register_lines_bytes, answer_bytes};
ghost use Rattle.integers.specs.Words.{integer_of, integers_of};
ghost use Rattle.rules.specs.paper.Decimal.{ascii, decimal};
ghost use Rattle.answer.specs.Program.{line, register_text, register_lines};
ghost use Rattle.answer.specs.Adding.{Adds};
ghost use Rattle.answer.specs.Writing.{refused_text, ran_text, ran_shows, marks_text, ran_answer};

use crate::text::Text;
use automaton::meter::HighMarks;
use calls::{Outcome, Ran};
use rules::refusals::{Refusal, Refused};

// `number V`, `truth 0` or `truth 1`, `cell V`, `none`, `refused N at P`.
fn put_outcome(text: &mut Text, outcome: Result<Outcome, Refused>)
    requires { length text.old + outcome_bytes ≤ answer_bytes }
    ensures { Adds outcome_bytes text.old (ran_text outcome) text.new }
{
    match outcome {
        Ok(Outcome::Number(word)) => text.put_labelled_integer(b"number ", word),
        Ok(Outcome::Truth(truth)) => text.put_labelled(b"truth ", truth as u64),
        Ok(Outcome::Location(cell)) => text.put_labelled(b"cell ", cell),
        Ok(Outcome::Nothing) => text.put(b"none"),
        Err(refused) => put_refused(text, refused),
    }
}

// `refused N at P`.
fn put_refused(text: &mut Text, refused: Refused)
    requires { length text.old + outcome_bytes ≤ answer_bytes }
    ensures { Adds outcome_bytes text.old (refused_text refused) text.new }
{
    text.put_labelled(b"refused ", refused.refusal.number());
    text.put_labelled(b" at ", refused.place as u64);
}

// The end of the first line, and `steps K` with its own.
fn put_steps(text: &mut Text, steps: u64)
    requires { length text.old + steps_bytes ≤ answer_bytes }
    ensures { Adds steps_bytes text.old (ascii "\n" ++ line (ascii "steps " ++ decimal steps)) text.new }
{
    text.put_labelled(b"\nsteps ", steps);
    text.put(b"\n");
}

// `most C B V K`: cells, bindings, value entries and control entries.
fn put_marks(text: &mut Text, marks: HighMarks)
    requires { length text.old + marks_bytes ≤ answer_bytes }
    ensures { Adds marks_bytes text.old (line (marks_text marks)) text.new }
{
    text.put_labelled(b"most ", marks.cells as u64);
    text.put_labelled(b" ", marks.bindings as u64);
    text.put_labelled(b" ", marks.values as u64);
    text.put_labelled(b" ", marks.control as u64);
    text.put(b"\n");
}

// `register I V`.
fn put_register(text: &mut Text, i: usize, word: u64)
    requires { length text.old + register_line_bytes ≤ answer_bytes }
    ensures { Adds register_line_bytes text.old (line (register_text i (integer_of word))) text.new }
{
    text.put_labelled(b"register ", i as u64);
    text.put_labelled_integer(b" ", word);
    text.put(b"\n");
}

// A line for each register.
fn put_registers(text: &mut Text, registers: &[u64])
    requires few_registers { length registers.now ≤ most_registers }
    requires room { length text.old + register_lines_bytes ≤ answer_bytes }
    ensures { Adds register_lines_bytes text.old (register_lines 0 (integers_of registers.now)) text.new }
{
    for (i, word) in registers.iter().enumerate() {
        put_register(text, i, *word);
    }
}

// Refusals before the run, 1 to 22, show no registers.
fn shows_registers(outcome: Result<Outcome, Refused>) -> bool
    ensures { result ≡ ran_shows outcome }
{
    match outcome {
        Ok(_) => true,
        Err(refused) => Refusal::Work.number() < refused.refusal.number(),
    }
}

// The whole answer.
pub(crate) fn answer_text(answer: Ran, registers: &[u64]) -> Text
    requires { length registers.now ≤ most_registers }
    ensures { result ≡ ran_answer answer (integers_of registers.now) }
{
    let mut text = Text::new();
    put_outcome(&mut text, answer.outcome);
    put_steps(&mut text, answer.steps);
    put_marks(&mut text, answer.marks);
    if shows_registers(answer.outcome) {
        put_registers(&mut text, registers);
    }
    text
}
