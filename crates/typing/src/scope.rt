// The scope: rows of names in the work words, and look-ups along them.
ghost use Rattle.std.specs.Prelude.{◌≡◌, ◌<◌, ◌≤◌, length};
ghost use Rattle.rules.specs.paper.Limits.{most_nodes, names};
ghost use Rattle.rules.specs.paper.Checker.{Scope};
ghost use Rattle.typing.specs.Rows.{rows_end, meaning_numbers, row_word, Rows, ScopeAt, RowFoundAt, NamesSharedAt};
ghost use Rattle.typing.specs.Answers.{NameFoundAt, MeaningJudgedAt};

use reader::{MOST_NODES, NAMES};
use rules::refusals::{Refusal, Refused};

// Where the rows begin among the work words: a node's row stands at ROWS + its place. A pointer is one more than its row's node, so its
// row stands at POINTERS + the pointer.
pub const ROWS: usize = MOST_NODES;

const POINTERS: usize = ROWS - 1;

// A row's word is its name + NAMES × the number of its meaning + LINK_FACTOR × the pointer of the row before it.
const MEANING_NUMBERS: usize = 16;

const LINK_FACTOR: usize = NAMES * MEANING_NUMBERS;

// The number of a function's meaning; that of any other meaning is its type code.
pub const FUNCTION: usize = 8;

// The number of the meaning of a register, which has the type code of a location of an integer.
const REGISTER: usize = 2;

// What a look-up finds: the number of the meaning, a type code or FUNCTION, and the pointer, which is 0 for a register.
#[derive(Clone, Copy, Debug, PartialEq, Eq)]
pub struct Found {
    pub meaning: usize,
    pub pointer: usize,
}

// The pointer of the newest row of a name, from one pointer to another.
pub fn find_row(work: &[u64], from: usize, to: usize, name: usize) -> Option<usize>
    requires rows_end_in_bounds { rows_end ≤ length work.now }
    requires rows { (Δ : Scope) × Rows work.now from to Δ }
    ensures { RowFoundAt work.now from to name result }
{
    let mut at = from;
    while at != to {
        let row = work[POINTERS + at] as usize;
        if row % NAMES == name {
            return Some(at);
        }
        at = row / LINK_FACTOR;
    }
    None
}

// The meaning of a name in the scope at a pointer.
pub fn lookup(work: &[u64], registers: usize, scope: usize, name: usize) -> Option<Found>
    requires rows_end_in_bounds { rows_end ≤ length work.now }
    requires scope_at { (Γ : Scope) × ScopeAt work.now registers scope Γ }
    ensures { NameFoundAt work.now registers scope name result }
{
    if let Some(pointer) = find_row(work, scope, 0, name) {
        let row = work[POINTERS + pointer] as usize;
        return Some(Found {
            meaning: row / NAMES % MEANING_NUMBERS,
            pointer,
        });
    }
    if name < registers {
        return Some(Found {
            meaning: REGISTER,
            pointer: 0,
        });
    }
    None
}

// The number of a name's meaning at a node; a name without a binding is refused there.
pub fn meaning(
    work: &[u64],
    registers: usize,
    scope: usize,
    node: usize,
    name: usize,
) -> Result<usize, Refused>
    requires rows_end_in_bounds { rows_end ≤ length work.now }
    requires scope_at { (Γ : Scope) × ScopeAt work.now registers scope Γ }
    ensures { MeaningJudgedAt work.now registers scope node name result }
{
    let Some(found) = lookup(work, registers, scope, name) else {
        return Err(Refused {
            refusal: Refusal::Unbound,
            place: node,
        });
    };
    Ok(found.meaning)
}

// Some name from the second pointer to the third stands from the first to the second too.
pub fn shares_name(work: &[u64], from: usize, middle: usize, to: usize) -> bool
    requires rows_end_in_bounds { rows_end ≤ length work.now }
    requires newer_rows { (Δ : Scope) × Rows work.now from middle Δ }
    requires older_rows { (Δ : Scope) × Rows work.now middle to Δ }
    ensures { NamesSharedAt work.now from middle to result }
{
    let mut at = middle;
    while at != to {
        let row = work[POINTERS + at] as usize;
        if find_row(work, from, middle, row % NAMES).is_some() {
            return true;
        }
        at = row / LINK_FACTOR;
    }
    false
}

// The word of a row.
pub fn row_word(name: usize, number: usize, link: usize) -> u64
    requires name_low { name < names }
    requires number_low { number < meaning_numbers }
    requires link_low { link ≤ most_nodes }
    ensures { result ≡ row_word name number link }
{
    (name + NAMES * number + LINK_FACTOR * link) as u64
}
