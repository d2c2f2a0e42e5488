// The capacity curve and the store law: document 01, sections "The capacity curve" and "The store law".
#![tactic(auto)]

pub mod capacity;
mod guesses;
mod powers;
mod roots;
pub mod share;
pub mod store;
mod table;
