#![tactic(auto)]

pub mod attribute;
pub mod book;
pub mod calls;
pub mod cells;
pub mod export;
pub mod face;
pub mod obey;
pub mod unnamed;
