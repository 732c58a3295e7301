// A request's PTY and FAC cards put into lent room, and whether a request is one that cards can hold.
#![tactic(auto)]

pub mod check;
pub mod put;
