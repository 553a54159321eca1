// The table of kinds (rules, paper/Kinds.antt): the kind of each number, the sorts that a kind is of, and its row: what its operand is below, and how
// many children it has and of which sorts.
ghost use Rattle.std.specs.Prelude.{◌≡◌, ◌+◌, ◌<◌, ◌≤◌, ◌∷◌, length, drop, Ok};
ghost use Rattle.reader.specs.declared.tables.Row.{Row};
ghost use Rattle.rules.specs.paper.Limits.{words};
ghost use Rattle.rules.specs.paper.Kinds.{is_of, child_sorts};
ghost use Rattle.rules.specs.declared.kinds.ExpressionKind.TheVariants.{Binary as binary};
ghost use Rattle.rules.specs.declared.kinds.Kind.TheVariants.{Expression as expression_kind, Command as command_kind, Declaration as declaration_kind};
ghost use Rattle.rules.specs.declared.kinds.Sort.TheVariants.{Expression as an_expression, Command as a_command, Declaration as a_declaration};
ghost use Rattle.reader.specs.Scan.{kind_at, passing};
ghost use Rattle.reader.specs.Children.{sorts_of_children};
ghost use Rattle.reader.specs.Rows.{childless, each, followed, counted_by, row_for, row_at, kind_answer};

use rules::kinds::{
    Arithmetic, CommandKind, DeclarationKind, ExpressionKind, Kind, Logic, Operator, Order, Sort,
};
use rules::refusals::{Refusal, Refused};

// The limits on operands (rules, paper/Limits.antt): words, names, type codes, parameters.
const WORDS: u64 = 1 << 32;

pub(crate) const NAMES: u64 = 64;

// A name takes so many bits of an operand, the lowest.
const NAME_BITS: u64 = 6;

const CODES: u64 = 8;

const MOST_PARAMETERS: u64 = 8;

// What a count is below; and a name with a count above it.
const COUNTS: u64 = MOST_PARAMETERS + 1;

const CALLS: u64 = NAMES * COUNTS;

// The kind with this number, if there is one.
#[inline(always)]
#[tactic(auto, unfolding(crate::specs::Scan::kind_at, rules::specs::paper::Kinds::kind_of))]
pub(crate) fn kind_of(number: u64) -> Option<Kind>
    ensures { result ≡ kind_at number }
{
    match number {
        1 => Some(Kind::Expression(ExpressionKind::Num)),
        2 => Some(Kind::Expression(ExpressionKind::Boo)),
        3 => Some(Kind::Expression(ExpressionKind::Id)),
        4 => Some(binary(Operator::Arithmetic(Arithmetic::Sum))),
        5 => Some(binary(Operator::Arithmetic(Arithmetic::Sub))),
        6 => Some(binary(Operator::Arithmetic(Arithmetic::Mul))),
        7 => Some(binary(Operator::Arithmetic(Arithmetic::Div))),
        8 => Some(binary(Operator::Eq)),
        9 => Some(binary(Operator::Order(Order::Lt))),
        10 => Some(binary(Operator::Order(Order::Le))),
        11 => Some(binary(Operator::Order(Order::Gt))),
        12 => Some(binary(Operator::Order(Order::Ge))),
        13 => Some(binary(Operator::Logic(Logic::And))),
        14 => Some(binary(Operator::Logic(Logic::Or))),
        15 => Some(Kind::Expression(ExpressionKind::Not)),
        16 => Some(Kind::Expression(ExpressionKind::DeRef)),
        17 => Some(Kind::Expression(ExpressionKind::ValRef)),
        20 => Some(Kind::Command(CommandKind::Assign)),
        21 => Some(Kind::Command(CommandKind::Loop)),
        22 => Some(Kind::Command(CommandKind::CSeq)),
        23 => Some(Kind::Command(CommandKind::Blk)),
        24 => Some(Kind::Command(CommandKind::Call)),
        25 => Some(Kind::Command(CommandKind::Cond)),
        30 => Some(Kind::Declaration(DeclarationKind::Bind)),
        31 => Some(Kind::Declaration(DeclarationKind::DSeq)),
        40 => Some(Kind::Ref),
        41 => Some(Kind::Abs),
        42 => Some(Kind::Formal),
        _ => None,
    }
}

fn binary(operator: Operator) -> Kind
    ensures { result ≡ expression_kind (binary operator) }
{
    Kind::Expression(ExpressionKind::Binary(operator))
}

// Whether a kind is of this sort. Asked where the kind's own sort is another: it is kept out of line, so that reading a node goes by no jump table.
#[inline(never)]
fn is_of(sort: Sort, kind: Kind) -> bool
    ensures { result ≡ is_of sort kind }
{
    match kind {
        Kind::Expression(_) => matches!(sort, Sort::Expression | Sort::Bound | Sort::Root),
        Kind::Command(CommandKind::Blk) => {
            matches!(sort, Sort::Command | Sort::Block | Sort::Root)
        }
        Kind::Command(_) => matches!(sort, Sort::Command | Sort::Root),
        Kind::Declaration(_) => matches!(sort, Sort::Declaration),
        Kind::Ref | Kind::Abs => matches!(sort, Sort::Bound),
        Kind::Formal => matches!(sort, Sort::Formal),
    }
}

// What the table says of a kind: its own sort, what its operand is below, and its children: so many of one sort, and as many more as the operand's
// bits from a place on say, and behind them so many of another sort.
#[derive(Clone, Copy, Debug, PartialEq, Eq)]
pub(crate) struct Row {
    kind: Kind,
    own: Sort,
    bound: u64,
    firsts: u64,
    counted_from: u64,
    first: Sort,
    others: u64,
    other: Sort,
}

// A place beyond the bits of every operand.
const NOT_COUNTED: u64 = 32;

impl Row {
    // A kind with no children.
    #[inline(always)]
    fn childless(kind: Kind, own: Sort, bound: u64) -> Row
        ensures { result ≡ childless kind own bound }
    {
        Row {
            kind,
            own,
            bound,
            firsts: 0,
            counted_from: NOT_COUNTED,
            first: own,
            others: 0,
            other: own,
        }
    }

    #[inline(always)]
    fn expression(kind: ExpressionKind, bound: u64) -> Row
        ensures { result ≡ childless (expression_kind kind) an_expression bound }
    {
        Row::childless(Kind::Expression(kind), Sort::Expression, bound)
    }

    #[inline(always)]
    fn operator(operator: Operator) -> Row
        ensures { result ≡ row_for (expression_kind (binary operator)) }
    {
        Row::expression(ExpressionKind::Binary(operator), 1).each(2, Sort::Expression)
    }

    #[inline(always)]
    fn command(kind: CommandKind, bound: u64) -> Row
        ensures { result ≡ childless (command_kind kind) a_command bound }
    {
        Row::childless(Kind::Command(kind), Sort::Command, bound)
    }

    #[inline(always)]
    fn declaration(kind: DeclarationKind, bound: u64) -> Row
        ensures { result ≡ childless (declaration_kind kind) a_declaration bound }
    {
        Row::childless(Kind::Declaration(kind), Sort::Declaration, bound)
    }

    // With so many children of a sort.
    #[inline(always)]
    fn each(self, count: u64, sort: Sort) -> Row
        ensures { result ≡ each count sort self }
    {
        Row {
            firsts: count,
            first: sort,
            ..self
        }
    }

    // Behind them so many of another sort.
    #[inline(always)]
    fn followed(self, count: u64, sort: Sort) -> Row
        ensures { result ≡ followed count sort self }
    {
        Row {
            others: count,
            other: sort,
            ..self
        }
    }

    // With two children.
    #[inline(always)]
    fn two(self, first: Sort, second: Sort) -> Row
        ensures { result ≡ followed 1 second (each 1 first self) }
    {
        self.each(1, first).followed(1, second)
    }

    // With as many children of a sort as the operand's bits from a place on say.
    #[inline(always)]
    fn counted_by(self, from: u64, sort: Sort) -> Row
        ensures { result ≡ counted_by from sort self }
    {
        Row {
            counted_from: from,
            first: sort,
            ..self
        }
    }

    // Whether the kind is of this sort. Most nodes are asked for the kind's own.
    #[inline(always)]
    fn has_sort(self, sort: Sort) -> bool
        requires { self ≡ row_for self.kind }
        ensures { result ≡ is_of sort self.kind }
    {
        self.own == sort || is_of(sort, self.kind)
    }

    // The children of a node with this operand.
    #[inline(always)]
    pub(crate) fn children(self, operand: u64) -> Children
        requires of_table { self ≡ row_for self.kind }
        requires word { operand < words }
        ensures sorts { sorts_of_children result ≡ child_sorts self.kind operand }
        ensures few { result.firsts + result.others ≤ words }
    {
        Children {
            firsts: self.firsts + (operand >> self.counted_from),
            first: self.first,
            others: self.others,
            other: self.other,
        }
    }
}

// The row of the kind with this number, if there is one. One `match` by the number has all that reading a node asks for, of which the compiler makes
// tables; a `match` by the kind for each question was a jump each, and a check of nodes of many kinds took a third longer so.
#[inline(always)]
#[tactic(auto, unfolding(crate::specs::Rows::row_at, rules::specs::paper::Kinds::kind_of))]
fn row_numbered(number: u64) -> Option<Row>
    ensures { result ≡ row_at number }
{
    match number {
        1 => Some(Row::expression(ExpressionKind::Num, WORDS)),
        2 => Some(Row::expression(ExpressionKind::Boo, 2)),
        3 => Some(Row::expression(ExpressionKind::Id, NAMES)),
        4 => Some(Row::operator(Operator::Arithmetic(Arithmetic::Sum))),
        5 => Some(Row::operator(Operator::Arithmetic(Arithmetic::Sub))),
        6 => Some(Row::operator(Operator::Arithmetic(Arithmetic::Mul))),
        7 => Some(Row::operator(Operator::Arithmetic(Arithmetic::Div))),
        8 => Some(Row::operator(Operator::Eq)),
        9 => Some(Row::operator(Operator::Order(Order::Lt))),
        10 => Some(Row::operator(Operator::Order(Order::Le))),
        11 => Some(Row::operator(Operator::Order(Order::Gt))),
        12 => Some(Row::operator(Operator::Order(Order::Ge))),
        13 => Some(Row::operator(Operator::Logic(Logic::And))),
        14 => Some(Row::operator(Operator::Logic(Logic::Or))),
        15 => Some(Row::expression(ExpressionKind::Not, 1).each(1, Sort::Expression)),
        16 => Some(Row::expression(ExpressionKind::DeRef, NAMES)),
        17 => Some(Row::expression(ExpressionKind::ValRef, NAMES)),
        20 => Some(Row::command(CommandKind::Assign, NAMES).each(1, Sort::Expression)),
        21 => Some(Row::command(CommandKind::Loop, 1).two(Sort::Expression, Sort::Command)),
        22 => Some(Row::command(CommandKind::CSeq, 1).each(2, Sort::Command)),
        23 => Some(Row::command(CommandKind::Blk, 1).two(Sort::Declaration, Sort::Command)),
        24 => Some(Row::command(CommandKind::Call, CALLS).counted_by(NAME_BITS, Sort::Expression)),
        25 => Some(
            Row::command(CommandKind::Cond, 1)
                .each(1, Sort::Expression)
                .followed(2, Sort::Command),
        ),
        30 => Some(Row::declaration(DeclarationKind::Bind, NAMES).each(1, Sort::Bound)),
        31 => Some(Row::declaration(DeclarationKind::DSeq, 1).each(2, Sort::Declaration)),
        40 => Some(Row::childless(Kind::Ref, Sort::Bound, 1).each(1, Sort::Expression)),
        41 => Some(
            Row::childless(Kind::Abs, Sort::Bound, COUNTS)
                .counted_by(0, Sort::Formal)
                .followed(1, Sort::Block),
        ),
        42 => Some(Row::childless(Kind::Formal, Sort::Formal, NAMES * CODES)),
        _ => None,
    }
}

// The checks of a node by its own words, but for its depth: its kind, a wrong sort, its operand. The row of the kind of one that passes them.
#[inline(always)]
pub(crate) fn passing(number: u64, operand: u64, sort: Sort, place: usize) -> Result<Row, Refused>
    ensures kind { kind_answer result ≡ passing sort number operand place }
    ensures row { (r : Row) → result ≡ Ok r → r ≡ row_for r.kind }
{
    let Some(row) = row_numbered(number) else {
        return Err(Refused {
            refusal: Refusal::Kind,
            place,
        });
    };
    if !row.has_sort(sort) {
        return Err(Refused {
            refusal: Refusal::Tree,
            place,
        });
    }
    if row.bound <= operand {
        return Err(Refused {
            refusal: Refusal::Operand,
            place,
        });
    }
    Ok(row)
}

// The children of a node: so many of one sort, and behind them so many of another.
#[derive(Clone, Copy, Debug, PartialEq, Eq)]
pub(crate) struct Children {
    firsts: u64,
    first: Sort,
    others: u64,
    other: Sort,
}

impl Children {
    // How many there are.
    pub(crate) fn count(self) -> u64
        requires { self.firsts + self.others ≤ words }
        ensures { result ≡ length (sorts_of_children self) }
    {
        self.firsts + self.others
    }

    // The sort of the one that has this many before it.
    pub(crate) fn sort(self, index: u64) -> Sort
        requires { index < length (sorts_of_children self) }
        ensures { drop index (sorts_of_children self) ≡ result ∷ drop (index + 1) (sorts_of_children self) }
    {
        if index < self.firsts {
            self.first
        } else {
            self.other
        }
    }
}
