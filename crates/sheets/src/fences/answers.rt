//! What a fence answers as a sheet.
ghost use Rattle.std.specs.Prelude.{◌≡◌, ◌↔◌, IsTrue};
ghost use Rattle.bits.specs.Tables.{words};
ghost use Rattle.sheets.specs.Fences.{graph_of, ClashOrFenced};
ghost use Rattle.sheets.specs.FenceLaws.{fence_lawful};

use crate::fences::Fence;
use crate::interface::Sheet;

impl<S: Sheet> Sheet for Fence<S> {
    ghost graph = { graph_of S.Sheet.graph };

    ghost laws = { λ s. fence_lawful (S.Sheet.graph s.below) (words s.pairs.lower) (S.Sheet.laws s.below) };

    fn count(&self) -> usize {
        self.below.count()
    }

    fn clash(&self, i: usize, j: usize) -> bool
        ensures answer { result ≡ (graph_of S.Sheet.graph self.now).clashes i j }
        ensures rule { IsTrue result ↔ ClashOrFenced (S.Sheet.graph self.now.below) (words self.now.pairs.lower) i j }
    {
        let n = self.below.count();
        if i >= n || j >= n {
            return false;
        }
        self.below.clash(i, j) || self.pairs.contains(i, j)
    }
}
