// The kinds of nodes, each with its sort, and the operators among them.

// What an operator takes and gives: two integers and an integer.
#[derive(Clone, Copy, Debug, PartialEq, Eq)]
pub enum Arithmetic {
    Sum,
    Sub,
    Mul,
    Div,
}

// Two integers, and a truth.
#[derive(Clone, Copy, Debug, PartialEq, Eq)]
pub enum Order {
    Lt,
    Le,
    Gt,
    Ge,
}

// Two truths, and a truth.
#[derive(Clone, Copy, Debug, PartialEq, Eq)]
pub enum Logic {
    And,
    Or,
}

// Eq takes two integers or two truths.
#[derive(Clone, Copy, Debug, PartialEq, Eq)]
pub enum Operator {
    Arithmetic(Arithmetic),
    Eq,
    Order(Order),
    Logic(Logic),
}

#[derive(Clone, Copy, Debug, PartialEq, Eq)]
pub enum ExpressionKind {
    Num,
    Boo,
    Id,
    DeRef,
    ValRef,
    Binary(Operator),
    Not,
}

#[derive(Clone, Copy, Debug, PartialEq, Eq)]
pub enum CommandKind {
    Assign,
    Loop,
    CSeq,
    Blk,
    Call,
    Cond,
}

#[derive(Clone, Copy, Debug, PartialEq, Eq)]
pub enum DeclarationKind {
    Bind,
    DSeq,
}

#[derive(Clone, Copy, Debug, PartialEq, Eq)]
pub enum Kind {
    Expression(ExpressionKind),
    Command(CommandKind),
    Declaration(DeclarationKind),
    Ref,
    Abs,
    Formal,
}

// What a child, or the root, may be: an expression, a command, a declaration; what a Bind binds, which is an expression, Ref or Abs; a Formal;
// a Blk and no other command; and the root, which is an expression or a command.
#[derive(Clone, Copy, Debug, PartialEq, Eq)]
pub enum Sort {
    Expression,
    Command,
    Declaration,
    Bound,
    Formal,
    Block,
    Root,
}

// What the root of an image is that passes: an expression, with its type code, or a command.
#[derive(Clone, Copy, Debug, PartialEq, Eq)]
pub enum Passed {
    Expression(usize),
    Command,
}
