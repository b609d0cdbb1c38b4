//! The search for the step whose assignment rises, and the move to the successor.
ghost use Rattle.std.specs.Prelude.{◌≡◌, ℕ, ◌<◌, ◌≤◌, ◌&&◌, IfSome, if◌then◌else◌, nat_le, nat_lt, slice_index};
ghost use Rattle.bits.specs.Tables.{words};
ghost use Rattle.orientations.specs.Rows.{Orients};
ghost use Rattle.rows.specs.Conflicts.{graph_of};
ghost use Rattle.rows.specs.Directions.{held};
ghost use Rattle.rows.specs.Moves.{rise_of, told_by, moved_to, Moved};
ghost use Rattle.sheets.specs.Limits.{limit};

use crate::directions::Directions;
use crate::levels::Level;
use bits::Mask;
use sheets::Sheet;

// A step whose assignment can rise, with its next row.
#[derive(Clone, Copy)]
struct Rise {
    step: usize,
    row: Mask,
}

impl Directions {
    // The highest step that has a next assignment.
    fn highest_rise(&self) -> Option<Rise>
        ensures answer { result ≡ rise_of (graph_of self.now.conflicts) (held self.now) }
        ensures step { IfSome result (λ rise. rise.step < (graph_of self.now.conflicts).steps) }
    {
        'rising: {
            // by a rule of the project, the search over levels and places is left by its label
            for step in (0..self.conflicts.count()).rev() {
                let level = Level::of(self, step);
                let mut ones = level.neighbours.intersection(self.row(step));
                for &place in level.placed().iter().rev() {
                    let neighbour = usize::from(place);
                    if !ones.contains(neighbour) {
                        // the rightmost 0 becomes 1; the places after it are 0 already
                        let row = level.closed(ones.with(neighbour));
                        break 'rising Some(Rise { step, row });
                    }
                    ones = ones.without(neighbour);
                }
            }
            None
        }
    }

    // Empties the rows of the steps from one up to another.
    fn clear(&mut self, from: usize, to: usize)
        requires from { from ≤ to }
        requires to { to ≤ limit }
        ensures conflicts { self.new.conflicts ≡ self.old.conflicts }
        ensures rows { (k : ℕ) → slice_index (words self.new.rows) k ≡ (if nat_le from k && nat_lt k to then 0 else slice_index (words self.old.rows) k) }
    {
        self.rows[from..to].fill(Mask::EMPTY);
    }

    /// Moves the rows to the successor, and tells the lowest step whose assignment changed. Where there is no successor, the
    /// rows become those of the lowest orientation.
    pub fn successor(&mut self) -> Option<usize>
        ensures answer { result ≡ told_by (graph_of self.old.conflicts) (held self.old) }
        ensures conflicts { self.new.conflicts ≡ self.old.conflicts }
        ensures after { held self.new ≡ moved_to (graph_of self.old.conflicts) (held self.old) }
        ensures below { IfSome result (λ k. (j : ℕ) → j < k → slice_index (words self.new.rows) j ≡ slice_index (words self.old.rows) j) }
        ensures rest { (k : ℕ) → (graph_of self.old.conflicts).steps ≤ k → slice_index (words self.new.rows) k ≡ slice_index (words self.old.rows) k }
        ensures next { Orients (graph_of self.old.conflicts) (held self.old) → Moved (graph_of self.old.conflicts) (held self.old) result (held self.new) }
    {
        let count = self.conflicts.count();
        match self.highest_rise() {
            Some(rise) => {
                self.rows[rise.step] = rise.row;
                self.clear(rise.step + 1, count);
                Some(rise.step)
            }
            None => {
                self.clear(0, count);
                None
            }
        }
    }
}
