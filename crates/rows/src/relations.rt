//! A relation between steps, kept as a set for each step, and what is asked of it.
ghost use Rattle.std.specs.Prelude.{◌≡◌, ℕ, Some, ◌&&◌, ◌||◌, ◌++◌, false, length, drop, nat_lt, slice_index, ◌==◌};
ghost use Rattle.std.specs.Fmt.{decimal, debug_list};
ghost use Rattle.bits.specs.Sets.{width, has, mask_of, any, Lowest};
ghost use Rattle.bits.specs.Tables.{words};
ghost use Rattle.orientations.specs.Assignments.{closed};
ghost use Rattle.orientations.specs.Placing.{candidate, lowest_candidate_of, places};
ghost use Rattle.rows.specs.Relations.{leads};
ghost use Rattle.sheets.specs.Limits.{limit};

use bits::Mask;
use sheets::LIMIT;
use std::fmt;

/// A relation between steps: for each step, the set of those that lead to it.
#[derive(Clone, Copy, Default, Eq, Hash, Ord, PartialEq, PartialOrd)]
pub struct Relation {
    sources: [Mask; LIMIT],
}

impl Relation {
    /// The relation in which nothing leads anywhere.
    pub fn none() -> Relation
        ensures { (q p : ℕ) → leads result q p ≡ false }
    {
        Relation {
            sources: [Mask::EMPTY; LIMIT],
        }
    }

    /// The steps that lead to p. None lead to a number that is not below the limit.
    pub fn sources_of(&self, p: usize) -> Mask
        ensures { result.bits ≡ slice_index (words self.now.sources) p }
    {
        bits::set_at(&self.sources, p)
    }

    // Lets each step of `more` lead to p.
    pub(crate) fn add(&mut self, p: usize, more: Mask)
        ensures { (q r : ℕ) → leads self.new q r ≡ (leads self.old q r || ((r == p && nat_lt p limit) && has more.bits q)) }
    {
        if p < LIMIT {
            self.sources[p] = self.sources_of(p).union(more);
        }
    }

    // Lets each step of `more` lead to each step of the set.
    pub(crate) fn lead(&mut self, set: Mask, more: Mask)
        ensures { (q p : ℕ) → leads self.new q p ≡ (leads self.old q p || ((nat_lt p limit && has set.bits p) && has more.bits q)) }
    {
        for p in set {
            self.add(p, more);
        }
    }

    /// The candidates for the next place: of the steps that are not yet placed, those to which none of them leads.
    pub fn candidates(&self, unplaced: Mask) -> Mask
        ensures { result.bits ≡ mask_of limit (candidate (leads self.now) limit unplaced.bits) }
    {
        let steps = unplaced.intersection(Mask::below(LIMIT));
        let mut found = Mask::EMPTY;
        for p in steps {
            if self.sources_of(p).intersection(steps).is_empty() {
                found = found.with(p);
            }
        }
        found
    }

    /// The step for the next place: the lowest candidate.
    pub fn lowest_candidate(&self, unplaced: Mask) -> Option<usize>
        ensures answer { result ≡ lowest_candidate_of (leads self.now) limit unplaced.bits }
        ensures lowest { Lowest limit (candidate (leads self.now) limit unplaced.bits) result }
    {
        self.candidates(unplaced).lowest()
    }

    /// Places the steps of a set one after the other, each time the lowest candidate, as far as the buffer has room; one byte
    /// a step. Answers how many were placed; the bytes past them stay.
    pub fn place(&self, set: Mask, out: &mut [u8]) -> usize
        ensures answer { result ≡ length (places (leads self.now) limit (length out.old) set.bits) }
        ensures buffer { out.new ≡ places (leads self.now) limit (length out.old) set.bits ++ drop result out.old }
    {
        let mut unplaced = set;
        for (k, byte) in out.iter_mut().enumerate() {
            match self.lowest_candidate(unplaced) {
                Some(step) => {
                    // a candidate is below 16, so it fits
                    *byte = step as u8;
                    unplaced = unplaced.without(step);
                }
                None => return k,
            }
        }
        out.len()
    }

    /// All steps that lead to a step of the set.
    pub fn leading(&self, set: Mask) -> Mask
        ensures answer { result.bits ≡ mask_of width (λ q. any limit (λ p. has set.bits p && leads self.now q p)) }
        ensures members { (q : ℕ) → has result.bits q ≡ any limit (λ p. has set.bits p && leads self.now q p) }
    {
        let steps = set.intersection(Mask::below(LIMIT));
        let mut all = Mask::EMPTY;
        for p in steps {
            all = all.union(self.sources_of(p));
        }
        all
    }

    /// The closure of a set: its members, and the steps to which one of them leads.
    pub fn closure(&self, set: Mask) -> Mask
        ensures { result.bits ≡ mask_of width (closed (leads self.now) width (has set.bits)) }
    {
        let mut all = set;
        for (p, sources) in self.sources.iter().enumerate() {
            if !sources.intersection(set).is_empty() {
                all = all.with(p);
            }
        }
        all
    }
}

/// A relation is shown as its table.
impl fmt::Debug for Relation {
    ghost debug_output = { λ relation. debug_list (λ m. Some (decimal m.bits)) relation.sources };

    fn fmt<W: fmt::Write>(&self, f: &mut fmt::Formatter<W>) -> fmt::Result {
        fmt::Debug::fmt(&self.sources, f)
    }
}

/// The relation of a table: entry p is the set of the steps that lead to p.
impl From<[Mask; LIMIT]> for Relation {
    ghost from_gives = { λ sources relation. relation.sources ≡ sources };

    fn from(sources: [Mask; LIMIT]) -> Relation {
        Relation { sources }
    }
}
