#![tactic(auto)]

pub mod hashed;
pub mod key;
pub mod numbering;
mod probe;
pub mod searched;
pub mod table;
#[cfg(test)]
mod tests;
