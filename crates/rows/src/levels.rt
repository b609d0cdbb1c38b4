//! What is known of the steps below a level: their arrows, their ancestors, and W of the level's neighbours.
ghost use Rattle.std.specs.Prelude.{◌≡◌, ◌&&◌, ◌++◌, length, take, drop, replicate};
ghost use Rattle.bits.specs.Sets.{width, has, mask_of};
ghost use Rattle.orientations.specs.Assignments.{W, closed};
ghost use Rattle.orientations.specs.Placing.{places};
ghost use Rattle.orientations.specs.Rows.{lower_neighbours, grown, pointed, assignment, earlier, ancestor};
ghost use Rattle.rows.specs.Conflicts.{graph_of};
ghost use Rattle.rows.specs.Directions.{held_to};
ghost use Rattle.rows.specs.Relations.{leads};
ghost use Rattle.sheets.specs.Limits.{limit};

use crate::directions::Directions;
use crate::graph::Conflicts;
use crate::relations::Relation;
use bits::Mask;
use sheets::LIMIT;

impl Relation {
    /// Adds a step with its row to the arrows between the steps below it. A number that is no step has no arrows.
    pub fn add_arrows(&mut self, conflicts: &Conflicts, step: usize, row: Mask)
        ensures { leads self.new ≡ pointed (leads self.old) step (earlier (graph_of conflicts.now) step row.bits) (assignment (graph_of conflicts.now) step row.bits) }
    {
        if step >= LIMIT {
            return;
        }
        let neighbours = conflicts.neighbours(step);
        self.lead(neighbours.intersection(row), Mask::EMPTY.with(step));
        self.add(step, neighbours.difference(row));
    }

    /// Adds a step with its row to the ancestors of the steps below it. A number that is no step is nobody's ancestor.
    pub fn add_ancestors(&mut self, conflicts: &Conflicts, step: usize, row: Mask)
        ensures { leads self.new ≡ grown (leads self.old) step (earlier (graph_of conflicts.now) step row.bits) (assignment (graph_of conflicts.now) step row.bits) }
    {
        if step >= LIMIT {
            return;
        }
        let neighbours = conflicts.neighbours(step);
        let later = neighbours.intersection(row);
        let earlier = neighbours.difference(row);
        let into = earlier.union(self.leading(earlier));
        let out = self.closure(later);
        // what is both before and after the step closes a circle: the step is its own ancestor
        let own = if later.intersection(into).is_empty() {
            into
        } else {
            into.with(step)
        };
        self.lead(out, into.with(step));
        self.add(step, own);
    }
}

/// What is known of a step before its own row: it says which assignments are legal, and which is lower.
#[derive(Clone, Copy)]
pub struct Level {
    /// the neighbours of the step
    pub neighbours: Mask,
    /// the ancestors of each step below it
    pub ancestors: Relation,
    /// W: the neighbours, each time the lowest that has no unplaced neighbour as an ancestor; zeros behind it.
    /// A vector that never allocates would do, but it is not `Copy`, and a level is
    pub places: [u8; LIMIT],
    /// how many places W has
    pub size: usize,
}

impl Level {
    /// The level of a step with these neighbours over steps with these ancestors.
    pub fn over(neighbours: Mask, ancestors: Relation) -> Level
        ensures neighbours { result.neighbours ≡ neighbours }
        ensures ancestors { result.ancestors ≡ ancestors }
        ensures places { result.places ≡ places (leads ancestors) limit limit neighbours.bits ++ drop result.size (replicate limit 0) }
        ensures size { result.size ≡ length (places (leads ancestors) limit limit neighbours.bits) }
    {
        let mut places = [0; LIMIT];
        let size = ancestors.place(neighbours, &mut places);
        Level {
            neighbours,
            ancestors,
            places,
            size,
        }
    }

    /// The level of a step over the rows of the steps below it.
    pub fn of(directions: &Directions, step: usize) -> Level
        ensures neighbours { result.neighbours.bits ≡ lower_neighbours (graph_of directions.now.conflicts) step }
        ensures ancestors { leads result.ancestors ≡ ancestor (graph_of directions.now.conflicts) (held_to directions.now step) }
        ensures places { result.places ≡ W (graph_of directions.now.conflicts) (held_to directions.now step) ++ drop result.size (replicate limit 0) }
        ensures size { result.size ≡ length (W (graph_of directions.now.conflicts) (held_to directions.now step)) }
    {
        let neighbours = directions.conflicts.neighbours(step);
        Level::over(neighbours, directions.ancestors(step))
    }

    /// The places of W, without the zeros behind them.
    pub fn placed(&self) -> &[u8]
        ensures { result.now ≡ take self.now.size self.now.places }
    {
        &self.places[..self.size.min(LIMIT)]
    }

    /// The row of a closed assignment: the neighbours among the given steps and among those that one of them leads to.
    pub fn closed(&self, ones: Mask) -> Mask
        ensures { result.bits ≡ mask_of width (λ p. has self.now.neighbours.bits p && closed (leads self.now.ancestors) width (has ones.bits) p) }
    {
        self.neighbours.intersection(self.ancestors.closure(ones))
    }
}
