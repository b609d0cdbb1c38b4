//! What a column sheet answers as a sheet.
ghost use Rattle.std.specs.Prelude.{◌≡◌, ◌↔◌, IsTrue};
ghost use Rattle.sheets.specs.Columns.{footprints, column_graph, ClashInColumn};
ghost use Rattle.sheets.specs.ColumnLaws.{column_lawful};

use crate::columns::ColumnSheet;
use crate::interface::Sheet;

impl Sheet for ColumnSheet {
    ghost graph = { λ s. column_graph (footprints s) };

    ghost laws = { column_lawful };

    fn count(&self) -> usize {
        self.steps().len()
    }

    fn clash(&self, i: usize, j: usize) -> bool
        ensures answer { result ≡ (column_graph (footprints self.now)).clashes i j }
        ensures column { IsTrue result ↔ ClashInColumn (footprints self.now) i j }
    {
        match (self.footprint(i), self.footprint(j)) {
            (Some(one), Some(other)) => i != j && one.meets(&other),
            _ => false,
        }
    }
}
