//! The calls that build a column sheet and tell its footprints.
ghost use Rattle.std.specs.Prelude.{◌≡◌, ◌+◌, MatchResult, []};
ghost use Rattle.sheets.specs.declared.refusals.Refusal.TheVariants.{NoStep};
ghost use Rattle.std.specs.List.{slice_get};
ghost use Rattle.sheets.specs.Columns.{footprints, add_refusal, after_add, note_refusal, after_note};
ghost use Rattle.sheets.specs.Footprints.{reading, writing};
ghost use Rattle.sheets.specs.Refusals.{outcome, Untouched};

use crate::columns::ColumnSheet;
use crate::footprints::Footprint;
use crate::limits::LIMIT;
use crate::refusals::Refusal;

impl ColumnSheet {
    /// A sheet without steps.
    pub fn new() -> ColumnSheet
        ensures { footprints result ≡ [] }
    {
        ColumnSheet {
            table: [Footprint::blank(); LIMIT],
            count: 0,
        }
    }

    /// Adds a step that touches nothing yet. Refused: 7 where the limit is reached.
    pub fn add_step(&mut self) -> Result<(), Refusal>
        ensures answer { outcome result ≡ add_refusal (footprints self.old) }
        ensures after { footprints self.new ≡ after_add (footprints self.old) }
        ensures same { Untouched (outcome result) self.old self.new }
    {
        if self.count >= LIMIT {
            return Err(Refusal::TooManySteps);
        }
        self.table[self.count] = Footprint::blank();
        self.count += 1;
        Ok(())
    }

    /// Lets the latest step read a column too. Refused: 5 before any step, then 8 for a column above 31.
    pub fn read(&mut self, column: usize) -> Result<(), Refusal>
        ensures answer { outcome result ≡ note_refusal (footprints self.old) column }
        ensures after { footprints self.new ≡ after_note (reading column) column (footprints self.old) }
        ensures same { Untouched (outcome result) self.old.table self.new.table × Untouched (outcome result) self.old.count self.new.count }
    {
        let latest = self.latest()?;
        self.table[latest].read(column)
    }

    /// Lets the latest step write a column too. Refused: 5 before any step, then 8 for a column above 31.
    pub fn write(&mut self, column: usize) -> Result<(), Refusal>
        ensures answer { outcome result ≡ note_refusal (footprints self.old) column }
        ensures after { footprints self.new ≡ after_note (writing column) column (footprints self.old) }
        ensures same { Untouched (outcome result) self.old.table self.new.table × Untouched (outcome result) self.old.count self.new.count }
    {
        let latest = self.latest()?;
        self.table[latest].write(column)
    }

    /// What a step touches; nothing is told of a step that is not below the count.
    pub fn footprint(&self, step: usize) -> Option<Footprint>
        ensures { result ≡ slice_get (footprints self.now) step }
    {
        self.steps().get(step).copied()
    }

    // The footprints of the steps, without the room for more.
    pub(super) fn steps(&self) -> &[Footprint]
        ensures { result.now ≡ footprints self.now }
    {
        &self.table[..self.count]
    }

    // The number of the latest step: a function that lends the entry itself gets no proof yet. Refused: 5 before any step.
    fn latest(&self) -> Result<usize, Refusal>
        ensures { MatchResult result (λ k. k + 1 ≡ self.now.count) (λ e. (e ≡ NoStep) × (self.now.count ≡ 0)) }
    {
        self.count.checked_sub(1).ok_or(Refusal::NoStep)
    }
}
