// The numbers of the symbols in the table of symbols: words of a token table hold them.
pub const POWER: u8 = 0;

pub const TIMES: u8 = 1;

pub const DIVIDE: u8 = 2;

pub const REMAINDER: u8 = 3;

pub const PLUS: u8 = 4;

pub const MINUS: u8 = 5;

pub const SHIFT_LEFT: u8 = 6;

pub const SHIFT_RIGHT: u8 = 7;

pub const SHIFT_RIGHT_ZEROS: u8 = 8;

pub const LESS: u8 = 9;

pub const GREATER: u8 = 10;

pub const LESS_OR_EQUAL: u8 = 11;

pub const GREATER_OR_EQUAL: u8 = 12;

pub const EQUAL: u8 = 13;

pub const NOT_EQUAL: u8 = 14;

pub const BIT_AND: u8 = 15;

pub const BIT_XOR: u8 = 16;

pub const BIT_OR: u8 = 17;

pub const AND: u8 = 18;

pub const OR: u8 = 19;

pub const COMPLEMENT: u8 = 20;

pub const NOT: u8 = 21;

pub const OPEN: u8 = 22;

pub const CLOSE: u8 = 23;

pub const OPEN_INDEX: u8 = 24;

pub const CLOSE_INDEX: u8 = 25;

pub const COMMA: u8 = 26;
