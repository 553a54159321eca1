// The names of the kinds, in their columns.
ghost use Rattle.std.specs.Prelude.{◌≡◌, ◌+◌, ◌<◌, length};
ghost use Rattle.page.specs.Page.{name_columns};
ghost use Rattle.page.specs.Writing.{IsName, IsOperatorName, NamePut};

use rules::kinds::{
    Arithmetic, CommandKind, DeclarationKind, ExpressionKind, Kind, Logic, Operator, Order,
};

// How many columns a name has: the longest have 6 letters.
pub(crate) const NAME_COLUMNS: usize = 6;

// The name of an operator, to the left of its columns.
fn operator_name(operator: Operator) -> [u8; NAME_COLUMNS]
    ensures { IsOperatorName operator result }
{
    match operator {
        Operator::Arithmetic(Arithmetic::Sum) => *b"Sum   ",
        Operator::Arithmetic(Arithmetic::Sub) => *b"Sub   ",
        Operator::Arithmetic(Arithmetic::Mul) => *b"Mul   ",
        Operator::Arithmetic(Arithmetic::Div) => *b"Div   ",
        Operator::Eq => *b"Eq    ",
        Operator::Order(Order::Lt) => *b"Lt    ",
        Operator::Order(Order::Le) => *b"Le    ",
        Operator::Order(Order::Gt) => *b"Gt    ",
        Operator::Order(Order::Ge) => *b"Ge    ",
        Operator::Logic(Logic::And) => *b"And   ",
        Operator::Logic(Logic::Or) => *b"Or    ",
    }
}

// The name of a kind, to the left of its columns.
fn name(kind: Kind) -> [u8; NAME_COLUMNS]
    ensures { IsName kind result }
{
    match kind {
        Kind::Expression(ExpressionKind::Num) => *b"Num   ",
        Kind::Expression(ExpressionKind::Boo) => *b"Boo   ",
        Kind::Expression(ExpressionKind::Id) => *b"Id    ",
        Kind::Expression(ExpressionKind::DeRef) => *b"DeRef ",
        Kind::Expression(ExpressionKind::ValRef) => *b"ValRef",
        Kind::Expression(ExpressionKind::Binary(operator)) => operator_name(operator),
        Kind::Expression(ExpressionKind::Not) => *b"Not   ",
        Kind::Command(CommandKind::Assign) => *b"Assign",
        Kind::Command(CommandKind::Loop) => *b"Loop  ",
        Kind::Command(CommandKind::CSeq) => *b"CSeq  ",
        Kind::Command(CommandKind::Blk) => *b"Blk   ",
        Kind::Command(CommandKind::Call) => *b"Call  ",
        Kind::Command(CommandKind::Cond) => *b"Cond  ",
        Kind::Declaration(DeclarationKind::Bind) => *b"Bind  ",
        Kind::Declaration(DeclarationKind::DSeq) => *b"DSeq  ",
        Kind::Ref => *b"Ref   ",
        Kind::Abs => *b"Abs   ",
        Kind::Formal => *b"Formal",
    }
}

// The name of a kind in its columns from a place on, and a blank behind them.
pub(crate) fn put_name(page: &mut [u8], at: usize, kind: Kind)
    requires { at + name_columns < length page.old }
    ensures { NamePut kind at page.old page.new }
{
    page[at..at + NAME_COLUMNS].copy_from_slice(&name(kind));
    page[at + NAME_COLUMNS] = b' ';
}
