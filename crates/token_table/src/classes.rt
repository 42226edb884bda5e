// The classes of words, each the lowest byte of a packed word; of class NONE is the end of the tokens, and an answer.
pub const NONE: u8 = 0;

pub const INTEGER: u8 = 1;

pub const REAL: u8 = 2;

pub const CELL: u8 = 3;

pub const LETTER: u8 = 4;

pub const NAME: u8 = 5;

pub const SYMBOL: u8 = 6;
