// The numbers of the kinds, as the table of kinds has them (rules, paper/Kinds.antt).
pub const NUM: usize = 1;

pub const BOO: usize = 2;

pub const ID: usize = 3;

pub const SUM: usize = 4;

pub const SUB: usize = 5;

pub const MUL: usize = 6;

pub const DIV: usize = 7;

pub const EQ: usize = 8;

pub const LT: usize = 9;

pub const LE: usize = 10;

pub const GT: usize = 11;

pub const GE: usize = 12;

pub const AND: usize = 13;

pub const OR: usize = 14;

pub const NOT: usize = 15;

pub const DEREF: usize = 16;

pub const VALREF: usize = 17;

pub const ASSIGN: usize = 20;

pub const LOOP: usize = 21;

pub const CSEQ: usize = 22;

pub const BLK: usize = 23;

pub const CALL: usize = 24;

pub const COND: usize = 25;

pub const BIND: usize = 30;

pub const DSEQ: usize = 31;

pub const REF: usize = 40;

pub const ABS: usize = 41;

pub const FORMAL: usize = 42;
