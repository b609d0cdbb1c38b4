//! The order of an orientation, and whether rows hold one.
ghost use Rattle.std.specs.Prelude.{◌≡◌, ◌≤◌, ◌↔◌, IsTrue, ◌++◌, length, take, drop, slice_index};
ghost use Rattle.bits.specs.Tables.{words};
ghost use Rattle.orientations.specs.Arrows.{Acyclic};
ghost use Rattle.orientations.specs.Orders.{order as order_of, EachOnce, Follows};
ghost use Rattle.orientations.specs.Rows.{arrow, Within, Orients};
ghost use Rattle.rows.specs.Conflicts.{graph_of};
ghost use Rattle.rows.specs.Directions.{held};

use crate::directions::Directions;
use bits::Mask;
use sheets::Sheet;

impl Directions {
    /// Writes the order of an orientation, one byte a step, as far as the buffer has room. Answers how many steps were
    /// written; the bytes past them stay.
    pub fn order(&self, out: &mut [u8]) -> usize
        ensures answer { result ≡ length (take (length out.old) (order_of (graph_of self.now.conflicts) (held self.now))) }
        ensures buffer { out.new ≡ take (length out.old) (order_of (graph_of self.now.conflicts) (held self.now)) ++ drop result out.old }
        ensures follows { Orients (graph_of self.now.conflicts) (held self.now) → (graph_of self.now.conflicts).steps ≤ length out.old → EachOnce (graph_of self.now.conflicts).steps (take result out.new) × Follows (graph_of self.now.conflicts) (held self.now) (take result out.new) }
    {
        let count = self.conflicts.count();
        self.arrows(count).place(Mask::below(count), out)
    }

    /// Whether no chain of arrows leads from a step back to itself.
    pub fn is_acyclic(&self) -> bool
        ensures { IsTrue result ↔ Acyclic (arrow (graph_of self.now.conflicts) (held self.now)) }
    {
        let count = self.conflicts.count();
        let ancestors = self.ancestors(count);
        (0..count).all(|step| !ancestors.sources_of(step).contains(step))
    }

    /// Whether rows hold an orientation: each holds neighbours of its step alone, and no chain of arrows leads back.
    pub fn holds_orientation(&self) -> bool
        ensures { IsTrue result ↔ Orients (graph_of self.now.conflicts) (held self.now) }
    {
        (0..self.conflicts.count()).all(|step| self.holds_neighbours(step)) && self.is_acyclic()
    }

    // Whether the row of a step holds neighbours of the step alone.
    fn holds_neighbours(&self, step: usize) -> bool
        ensures { IsTrue result ↔ Within (graph_of self.now.conflicts) step (slice_index (words self.now.rows) step) }
    {
        self.row(step)
            .difference(self.conflicts.neighbours(step))
            .is_empty()
    }
}
