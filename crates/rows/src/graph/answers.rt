//! What copied clashes answer as a sheet.
ghost use Rattle.rows.specs.Conflicts.{graph_of, conflicts_lawful};

use crate::graph::Conflicts;
use sheets::Sheet;

impl Sheet for Conflicts {
    ghost graph = { graph_of };

    ghost laws = { conflicts_lawful };

    fn count(&self) -> usize {
        self.count
    }

    fn clash(&self, i: usize, j: usize) -> bool {
        i < self.count && j < self.count && self.pairs.contains(i, j)
    }
}
