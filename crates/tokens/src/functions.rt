// The numbers of the functions: their places in `functions` of specs/Words.antt. Words of a token table hold them, and the reader tells functions apart by
// them: an enum with the operator of a total, passed by value, cost 25 machine instructions a word.
pub const ABS: u8 = 0;

pub const TO_REAL: u8 = 1;

pub const TO_INT: u8 = 2;

pub const TRUNC: u8 = 3;

pub const ROUND: u8 = 4;

pub const FRAC: u8 = 5;

pub const MAX: u8 = 6;

pub const MIN: u8 = 7;

pub const IF: u8 = 8;

pub const TICK_MS: u8 = 9;

pub const SINCE: u8 = 10;

pub const SUMR: u8 = 11;

pub const AVGR: u8 = 12;

pub const MAXR: u8 = 13;

pub const MINR: u8 = 14;

pub const COUNTIF_EQ: u8 = 15;

pub const COUNTIF_NE: u8 = 16;

pub const COUNTIF_GE: u8 = 17;

pub const COUNTIF_GT: u8 = 18;

pub const COUNTIF_LE: u8 = 19;

pub const COUNTIF_LT: u8 = 20;

pub const SUMIF_EQ: u8 = 21;

pub const SUMIF_NE: u8 = 22;

pub const SUMIF_GE: u8 = 23;

pub const SUMIF_GT: u8 = 24;

pub const SUMIF_LE: u8 = 25;

pub const SUMIF_LT: u8 = 26;

// How many functions there are; as a number, none of them.
pub const COUNT: u8 = 27;
