#![tactic(auto)]

pub mod attributes;
pub mod corner;
pub mod error;
pub mod errors;
pub mod list;
pub mod options;
pub mod point;
pub mod points;
pub mod row;
pub mod rows;
pub mod waiting;
