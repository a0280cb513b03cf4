#![tactic(auto)]

pub mod counts;
pub mod face;
mod number;
mod reader;
mod split;
#[cfg(test)]
mod tests;
pub mod vertex;
