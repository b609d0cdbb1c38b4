//! A table of pairs of steps.
ghost use Rattle.std.specs.Prelude.{◌≡◌, ℕ, false, not, ◌&&◌, ◌||◌, ◌==◌, nat_lt, slice_index};
ghost use Rattle.bits.specs.Sets.{width, mask_of};
ghost use Rattle.bits.specs.Tables.{words};
ghost use Rattle.sheets.specs.Fences.{fenced, is_pair};
ghost use Rattle.sheets.specs.Limits.{limit};

use crate::interface::{Sheet, neighbours};
use crate::limits::LIMIT;
use bits::Mask;

/// Pairs of different steps, each kept once: the higher-numbered step of a pair has the lower one in its set.
#[derive(Clone, Copy, Debug, Eq, PartialEq)]
pub struct Pairs {
    lower: [Mask; LIMIT],
}

impl Pairs {
    /// A table without pairs.
    pub fn none() -> Pairs
        ensures { (p q : ℕ) → fenced (words result.lower) p q ≡ false }
    {
        Pairs {
            lower: [Mask::EMPTY; LIMIT],
        }
    }

    /// The pairs of steps that clash on a sheet.
    pub fn of<S: Sheet>(sheet: &S) -> Pairs
        ensures { (p q : ℕ) → fenced (words result.lower) p q ≡ (S.Sheet.graph sheet.now).clashes p q }
    {
        let count = sheet.count();
        let mut lower = [Mask::EMPTY; LIMIT];
        for (step, set) in lower.iter_mut().enumerate() {
            // a number that is no step clashes with none, and is not asked for
            if step >= count {
                break;
            }
            *set = neighbours(sheet, step);
        }
        Pairs { lower }
    }

    /// Whether two steps are a pair, whichever is named first.
    pub fn contains(&self, i: usize, j: usize) -> bool
        ensures { result ≡ fenced (words self.now.lower) i j }
    {
        i != j && self.lower_of(i.max(j)).contains(i.min(j))
    }

    /// Adds a pair of steps. A step makes no pair with itself, nor with a number that is not below the limit.
    pub fn add(&mut self, i: usize, j: usize)
        ensures { (p q : ℕ) → fenced (words self.new.lower) p q ≡ (fenced (words self.old.lower) p q || ((not (i == j) && nat_lt i limit && nat_lt j limit) && is_pair i j p q)) }
    {
        let (low, high) = (i.min(j), i.max(j));
        if low < high && high < LIMIT {
            self.lower[high] = self.lower[high].with(low);
        }
    }

    /// The lower-numbered steps that a step makes a pair with.
    pub fn below(&self, step: usize) -> Mask
        ensures { result.bits ≡ mask_of width (λ q. nat_lt q step && fenced (words self.now.lower) step q) }
    {
        self.lower_of(step).intersection(Mask::below(step))
    }

    // The set of a step; a number that is not below the limit has an empty one.
    fn lower_of(&self, step: usize) -> Mask
        ensures { result.bits ≡ slice_index (words self.now.lower) step }
    {
        bits::set_at(&self.lower, step)
    }
}
