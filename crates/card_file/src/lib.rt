// The file of cards (paper 02, request 6): reading it, and the form and the judgement of one card.
#![tactic(auto)]

pub mod check;
pub mod form;
pub mod judging;
pub mod read;
