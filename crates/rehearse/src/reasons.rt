//! Why two steps clash on a sheet that stands over the runbook.
ghost use Rattle.std.specs.Prelude.{◌≡◌};
ghost use Rattle.rehearse.specs.Reasons.{reason_of, meeting_of};
ghost use Rattle.sheets.specs.Columns.{footprints, column_graph};
ghost use Rattle.std.specs.List.{slice_get};

use crate::story::Columns;
use bits::Mask;
use sheets::{ColumnSheet, Sheet};
use std::fmt;

/// By which rule two steps clash.
#[derive(Clone, Copy, Debug, Eq, PartialEq)]
pub enum Reason {
    /// the columns that they touch show it: they meet in these
    Columns(Mask),
    /// only a fence shows it
    Fence,
}

impl fmt::Display for Reason {
    fn fmt<W: fmt::Write>(&self, f: &mut fmt::Formatter<W>) -> fmt::Result {
        match self {
            Reason::Columns(meeting) => {
                let columns = Columns(*meeting);
                write!(f, "clash by footprint, in {columns}")
            }
            Reason::Fence => f.write_str("clash by fence"),
        }
    }
}

/// The reason of one pair, on any sheet over the runbook; none where the two steps do not clash.
pub fn why<S: Sheet>(runbook: &ColumnSheet, sheet: &S, i: usize, j: usize) -> Option<Reason>
    ensures { result ≡ reason_of ((column_graph (footprints runbook.now)).clashes i j) ((S.Sheet.graph sheet.now).clashes i j) (meeting_of (slice_get (footprints runbook.now) i) (slice_get (footprints runbook.now) j)) }
{
    if runbook.clash(i, j) {
        Some(Reason::Columns(meeting_columns(runbook, i, j)))
    } else if sheet.clash(i, j) {
        Some(Reason::Fence)
    } else {
        None
    }
}

/// The columns in which two steps of the runbook meet; none where one of them is no step.
pub fn meeting_columns(runbook: &ColumnSheet, i: usize, j: usize) -> Mask
    ensures { result.bits ≡ meeting_of (slice_get (footprints runbook.now) i) (slice_get (footprints runbook.now) j) }
{
    match (runbook.footprint(i), runbook.footprint(j)) {
        (Some(one), Some(other)) => one.meeting_columns(&other),
        _ => Mask::EMPTY,
    }
}
