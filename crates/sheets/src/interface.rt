//! What every sheet answers, whatever its rule of clashing.
ghost use Rattle.std.specs.Prelude.{◌≡◌};
ghost use Rattle.sheets.specs.Graphs.{Graph, Lawful, neighbours_of};

use bits::Mask;

/// A sheet: steps numbered from 0, some of which clash, so that their order can matter.
pub trait Sheet {
    // the steps and their clashes
    ghost graph: { Self → Graph };

    // what each sheet shows of itself
    ghost laws: { (s : Self) → Lawful (graph s) };

    /// How many steps there are.
    fn count(&self) -> usize
        ensures { result ≡ (graph self.now).steps };

    /// Whether two steps clash; none does that is not below the count.
    fn clash(&self, i: usize, j: usize) -> bool
        ensures { result ≡ (graph self.now).clashes i j };
}

/// The neighbours of a step: the lower-numbered steps that clash with it.
pub fn neighbours<S: Sheet>(sheet: &S, step: usize) -> Mask
    ensures { result.bits ≡ neighbours_of (S.Sheet.graph sheet.now) step }
{
    let mut found = Mask::EMPTY;
    for other in 0..step.min(sheet.count()) {
        if sheet.clash(step, other) {
            found = found.with(other);
        }
    }
    found
}
