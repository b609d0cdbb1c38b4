//! An orientation held as rows, one for each step, and the small functions on rows from which a walk is made.
#![tactic(auto)]

mod directions;
mod graph;
mod levels;
mod orders;
mod relations;
mod successors;
#[cfg(test)]
mod tests;

pub use directions::Directions;
pub use graph::Conflicts;
pub use levels::Level;
pub use relations::Relation;
