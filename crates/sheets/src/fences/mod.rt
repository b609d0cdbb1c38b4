//! A fence: a sheet over another sheet, with pairs of its own.
use crate::pairs::Pairs;

mod answers;
mod methods;

/// A sheet over any other sheet: two steps clash where they clash below or their pair is fenced.
#[derive(Clone, Copy, Drop)]
pub struct Fence<S> {
    below: S,
    pairs: Pairs,
}
