#![tactic(auto)]

pub mod blank;
