#![tactic(auto)]

pub mod cells;
mod clear;
pub mod export;
pub mod lists;
mod merge;
mod merge_all;
pub mod mesh;
pub mod meshes;
mod multi;
pub mod numbering;
mod single;
pub mod six_tables;
mod stream;
mod trim;
mod unfold;
