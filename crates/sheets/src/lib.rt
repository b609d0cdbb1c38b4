//! Sheets: how many steps a runbook has and which of them clash, whatever the rule of clashing.
#![tactic(auto)]

mod columns;
mod fences;
mod footprints;
mod interface;
mod limits;
mod pairs;
mod refusals;
#[cfg(test)]
mod tests;

pub use columns::ColumnSheet;
pub use fences::Fence;
pub use footprints::Footprint;
pub use interface::{Sheet, neighbours};
pub use limits::{COLUMNS, LIMIT};
pub use pairs::Pairs;
pub use refusals::Refusal;
