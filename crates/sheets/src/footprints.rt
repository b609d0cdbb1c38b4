//! What a step touches: the columns that it reads and those that it writes.
ghost use Rattle.std.specs.Prelude.{◌≡◌, ℕ, ◌<◌, ◌↔◌, IsTrue, if◌then◌else◌, nat_lt, Ok, Err};
ghost use Rattle.bits.specs.Sets.{width, mask_of};
ghost use Rattle.sheets.specs.declared.refusals.Refusal.TheVariants.{BadColumn};
ghost use Rattle.sheets.specs.Footprints.{blank, touches, meets_in, meeting, MeetsIn, column_refusal, reading, writing};
ghost use Rattle.sheets.specs.Limits.{columns};
ghost use Rattle.sheets.specs.Refusals.{outcome, settled};

use crate::limits::COLUMNS;
use crate::refusals::Refusal;
use bits::Mask;

/// What a step touches: two sets of columns.
#[derive(Clone, Copy, Debug, Eq, PartialEq)]
pub struct Footprint {
    /// the columns that it reads
    pub reads: Mask,
    /// the columns that it writes
    pub writes: Mask,
}

// The number of a column that there is. Refused: 8 for a column above 31.
fn known(column: usize) -> Result<usize, Refusal>
    ensures { result ≡ (if nat_lt column columns then Ok column else Err BadColumn) }
{
    if column < COLUMNS {
        Ok(column)
    } else {
        Err(Refusal::BadColumn)
    }
}

impl Footprint {
    /// The footprint of a step that touches nothing.
    pub fn blank() -> Footprint
        ensures { result ≡ blank }
    {
        Footprint {
            reads: Mask::EMPTY,
            writes: Mask::EMPTY,
        }
    }

    /// Adds a column that is read. Refused: 8 for a column above 31.
    pub fn read(&mut self, column: usize) -> Result<(), Refusal>
        ensures answer { outcome result ≡ column_refusal column }
        ensures after { self.new ≡ settled (column_refusal column) self.old (reading column self.old) }
    {
        self.reads = self.reads.with(known(column)?);
        Ok(())
    }

    /// Adds a column that is written. Refused: 8 for a column above 31.
    pub fn write(&mut self, column: usize) -> Result<(), Refusal>
        ensures answer { outcome result ≡ column_refusal column }
        ensures after { self.new ≡ settled (column_refusal column) self.old (writing column self.old) }
    {
        self.writes = self.writes.with(known(column)?);
        Ok(())
    }

    // The columns that it reads or writes.
    fn touched(&self) -> Mask
        ensures { result.bits ≡ mask_of width (touches self.now) }
    {
        self.reads.union(self.writes)
    }

    /// The columns in which two footprints meet: one writes the column, and the other reads or writes it.
    pub fn meeting_columns(&self, other: &Footprint) -> Mask
        ensures { result.bits ≡ mask_of columns (meets_in self.now other.now) }
    {
        let ours = self.writes.intersection(other.touched());
        let theirs = other.writes.intersection(self.touched());
        ours.union(theirs)
    }

    /// Whether two footprints meet in some column.
    pub fn meets(&self, other: &Footprint) -> bool
        ensures answer { result ≡ meeting self.now other.now }
        ensures column { IsTrue result ↔ ((c : ℕ) × (c < columns) × MeetsIn self.now other.now c) }
    {
        !self.meeting_columns(other).is_empty()
    }
}
