//! Copying the clashes of a sheet, and the neighbours of a step.
ghost use Rattle.std.specs.Prelude.{◌≡◌};
ghost use Rattle.orientations.specs.Rows.{lower_neighbours};
ghost use Rattle.rows.specs.Conflicts.{graph_of};

use crate::graph::Conflicts;
use bits::Mask;
use sheets::{Pairs, Sheet};

impl Conflicts {
    /// Asks a sheet for its steps and clashes.
    pub fn of<S: Sheet>(sheet: &S) -> Conflicts
        ensures { graph_of result ≡ S.Sheet.graph sheet.now }
    {
        Conflicts {
            count: sheet.count(),
            pairs: Pairs::of(sheet),
        }
    }

    /// The neighbours of a step: the lower-numbered steps that clash with it. A number that is no step has none.
    pub fn neighbours(&self, step: usize) -> Mask
        ensures { result.bits ≡ lower_neighbours (graph_of self.now) step }
    {
        if step >= self.count {
            return Mask::EMPTY;
        }
        self.pairs.below(step)
    }
}
