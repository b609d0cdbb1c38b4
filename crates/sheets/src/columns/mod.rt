//! The column sheet: steps that clash by the columns that they touch.
ghost use Rattle.std.specs.Prelude.{◌≤◌};
ghost use Rattle.sheets.specs.Limits.{limit};

use crate::footprints::Footprint;
use crate::limits::LIMIT;

mod answers;
mod methods;

/// A sheet with a footprint for each step: two steps clash where one writes a column that the other reads or writes.
#[derive(Clone, Copy)]
pub struct ColumnSheet {
    // the footprints of the steps, and room for more: a vector that never allocates would do, but it is not `Copy`, and a
    // sheet is
    table: [Footprint; LIMIT],
    // how many steps there are
    count: usize,
    ghost few: { count ≤ limit },
}
