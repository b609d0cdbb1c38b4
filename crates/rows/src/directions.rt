//! A direction for each clash: rows, and the arrows and ancestors that they mean.
ghost use Rattle.std.specs.Prelude.{◌≡◌, ℕ, ◌↔◌, IsTrue, slice_index};
ghost use Rattle.bits.specs.Tables.{words};
ghost use Rattle.orientations.specs.Arrows.{Chain};
ghost use Rattle.orientations.specs.Rows.{arrow, ancestor};
ghost use Rattle.orientations.specs.Successors.{lowest};
ghost use Rattle.rows.specs.Conflicts.{graph_of};
ghost use Rattle.rows.specs.Directions.{held, held_to};
ghost use Rattle.rows.specs.Relations.{leads};

use crate::graph::Conflicts;
use crate::relations::Relation;
use bits::Mask;
use sheets::LIMIT;

/// A conflict graph with a row for each step: the set of the neighbours that the step runs before. So each clash has a
/// direction. What else is in a row counts for nothing.
#[derive(Clone, Copy)]
pub struct Directions {
    /// the steps and their clashes
    pub conflicts: Conflicts,
    /// the row of each step; promises speak of those past the count too, so there is one for each number below the limit
    pub rows: [Mask; LIMIT],
}

impl Directions {
    /// The directions of the lowest orientation: each step runs after its neighbours.
    pub fn lowest(conflicts: Conflicts) -> Directions
        ensures conflicts { result.conflicts ≡ conflicts }
        ensures rows { held result ≡ lowest (graph_of conflicts).steps }
        ensures all { (k : ℕ) → slice_index (words result.rows) k ≡ 0 }
    {
        Directions {
            conflicts,
            rows: [Mask::EMPTY; LIMIT],
        }
    }

    /// The row of a step; a number that is not below the limit has an empty one.
    pub fn row(&self, step: usize) -> Mask
        ensures { result.bits ≡ slice_index (words self.now.rows) step }
    {
        bits::set_at(&self.rows, step)
    }

    /// Where an arrow leads from one step to another, among the steps below a level.
    pub fn arrows(&self, level: usize) -> Relation
        ensures { leads result ≡ arrow (graph_of self.now.conflicts) (held_to self.now level) }
    {
        let mut relation = Relation::none();
        for (step, row) in self.rows[..level.min(LIMIT)].iter().enumerate() {
            relation.add_arrows(&self.conflicts, step, *row);
        }
        relation
    }

    /// The ancestors of each step below a level, by arrows among the steps below it.
    pub fn ancestors(&self, level: usize) -> Relation
        ensures answer { leads result ≡ ancestor (graph_of self.now.conflicts) (held_to self.now level) }
        ensures chains { (q p : ℕ) → IsTrue (leads result q p) ↔ Chain (arrow (graph_of self.now.conflicts) (held_to self.now level)) q p }
    {
        // the loop of `arrows`: one for both would take the call as a closure, with a contract longer than the loop
        let mut relation = Relation::none();
        for (step, row) in self.rows[..level.min(LIMIT)].iter().enumerate() {
            relation.add_ancestors(&self.conflicts, step, *row);
        }
        relation
    }
}
