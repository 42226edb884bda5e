// What writing a formula's text takes: a text put into a buffer that may be too small for it, and where the tokens of a text end.
#![tactic(auto)]

pub mod scratch;
pub mod spelling;
