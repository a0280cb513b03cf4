#![tactic(auto)]

mod kind;
pub mod layout;
pub mod line;
mod lines;
pub mod play;
pub mod record;
mod word;
