//! Sets of small numbers, as masks: steps of a sheet, columns of a table.
#![tactic(auto)]

ghost use Rattle.std.specs.Prelude.{◌≡◌, ℕ, Some, false, not, ◌&&◌, ◌||◌, ◌↔◌, IsTrue, ◌==◌, nat_lt, slice_index};
ghost use Rattle.std.specs.Fmt.{decimal};
ghost use Rattle.std.specs.Iterator.{YieldsFirst, item_count};
ghost use Rattle.bits.specs.Tables.{words};
ghost use Rattle.bits.specs.Sets.{width, has, mask_of, inserted, members_of, Members, first, Lowest};

use std::fmt;

/// How many numbers a mask has room for.
pub const WIDTH: usize = 32;

/// A set of numbers from 0 to 31, as the bits of a word.
// No model: with one, a caller that puts a column sheet into a fence would get no proof today, so clauses name the word.
#[derive(Clone, Copy, Default, Eq, Hash, Ord, PartialEq, PartialOrd)]
pub struct Mask {
    // p is in the set where bit p is 1
    bits: u32,
}

impl Mask {
    /// The set without members.
    pub const EMPTY: Mask = Mask { bits: 0 };

    /// Whether there is no member.
    pub fn is_empty(self) -> bool
        ensures answer { result ≡ (self.bits == 0) }
        ensures members { IsTrue result ↔ ((q : ℕ) → has self.bits q ≡ false) }
    {
        self.bits == 0
    }

    /// Whether p is in the set. No number above 31 is.
    pub fn contains(self, p: usize) -> bool
        ensures { result ≡ has self.bits p }
    {
        p < WIDTH && self.bits & (1 << p) != 0
    }

    /// The set with p in it too. A number above 31 adds nothing.
    pub fn with(self, p: usize) -> Mask
        ensures answer { result.bits ≡ inserted self.bits p }
        ensures members { Members result.bits (λ q. has self.bits q || q == p) }
    {
        if p >= WIDTH {
            return self;
        }
        Mask {
            bits: self.bits | (1 << p),
        }
    }

    /// The set without p.
    pub fn without(self, p: usize) -> Mask
        ensures answer { result.bits ≡ mask_of width (λ q. has self.bits q && not (q == p)) }
        ensures members { Members result.bits (λ q. has self.bits q && not (q == p)) }
    {
        if p >= WIDTH {
            return self;
        }
        Mask {
            bits: self.bits & !(1 << p),
        }
    }

    /// What is in one of two sets or in both.
    pub fn union(self, other: Mask) -> Mask
        ensures answer { result.bits ≡ mask_of width (λ q. has self.bits q || has other.bits q) }
        ensures members { Members result.bits (λ q. has self.bits q || has other.bits q) }
    {
        Mask {
            bits: self.bits | other.bits,
        }
    }

    /// What is in both sets.
    pub fn intersection(self, other: Mask) -> Mask
        ensures answer { result.bits ≡ mask_of width (λ q. has self.bits q && has other.bits q) }
        ensures members { Members result.bits (λ q. has self.bits q && has other.bits q) }
    {
        Mask {
            bits: self.bits & other.bits,
        }
    }

    /// What is in this set and not in the other.
    pub fn difference(self, other: Mask) -> Mask
        ensures answer { result.bits ≡ mask_of width (λ q. has self.bits q && not (has other.bits q)) }
        ensures members { Members result.bits (λ q. has self.bits q && not (has other.bits q)) }
    {
        Mask {
            bits: self.bits & !other.bits,
        }
    }

    /// Whether two sets have the same members: equal masks, and no others, have.
    pub fn same(self, other: Mask) -> bool
        ensures { IsTrue result ↔ ((q : ℕ) → has self.bits q ≡ has other.bits q) }
    {
        self == other
    }

    /// The lowest number in the set; none where the set is empty.
    pub fn lowest(self) -> Option<usize>
        ensures answer { result ≡ first width (has self.bits) }
        ensures lowest { Lowest width (has self.bits) result }
    {
        if self.is_empty() {
            return None;
        }
        // at most 31; there is no `From<u32>` for `usize`
        Some(self.bits.trailing_zeros() as usize)
    }

    // The set without its lowest member. Below a word's lowest 1, taking 1 away turns 0s into 1s, and above it nothing
    // changes; so this needs no shift, and a loop over members waits for none.
    fn rest(self) -> Mask
        ensures lowest { (p : ℕ) → Lowest width (has self.bits) (Some p) → result.bits ≡ mask_of width (λ q. has self.bits q && not (q == p)) }
        ensures none { self.bits ≡ 0 → result.bits ≡ 0 }
    {
        Mask {
            bits: self.bits & self.bits.wrapping_sub(1),
        }
    }

    /// The set of all numbers below i; of all 32 where i is above 31.
    pub fn below(i: usize) -> Mask
        ensures answer { result.bits ≡ mask_of width (λ q. nat_lt q i) }
        ensures members { Members result.bits (λ q. nat_lt q i) }
    {
        if i >= WIDTH {
            return Mask { bits: !0 };
        }
        Mask { bits: (1 << i) - 1 }
    }
}

/// The set at a place of a table; past the end of the table it is empty.
pub fn set_at(table: &[Mask], i: usize) -> Mask
    ensures { result.bits ≡ slice_index (words table.now) i }
{
    table.get(i).copied().unwrap_or(Mask::EMPTY)
}

/// The set that a word tells: p is in it where bit p is 1.
impl From<u32> for Mask {
    ghost from_gives = { λ bits m. m.bits ≡ bits };

    fn from(bits: u32) -> Mask {
        Mask { bits }
    }
}

/// The word in which bit p is 1 where p is in the set.
impl From<Mask> for u32 {
    ghost from_gives = { λ m bits. bits ≡ m.bits };

    fn from(set: Mask) -> u32 {
        set.bits
    }
}

/// A set is shown as its word.
impl fmt::Debug for Mask {
    ghost debug_output = { λ m. Some (decimal m.bits) };

    fn fmt<W: fmt::Write>(&self, f: &mut fmt::Formatter<W>) -> fmt::Result {
        fmt::Debug::fmt(&self.bits, f)
    }
}

/// The members of a set, rising.
#[derive(Clone, Copy, Debug)]
pub struct IntoIter {
    // those that are still to come
    left: Mask,
}

impl IntoIterator for Mask {
    type Item = usize;

    type IntoIter = IntoIter;

    ghost into_iter_gives = { λ m it. it.left ≡ m };

    fn into_iter(self) -> IntoIter {
        IntoIter { left: self }
    }
}

impl Iterator for IntoIter {
    type Item = usize;

    ghost next_gives = { YieldsFirst (λ s. members_of s.left.bits) };

    ghost remaining = { item_count (λ s. members_of s.left.bits) };

    fn next(&mut self) -> Option<usize> {
        let lowest = self.left.lowest()?;
        self.left = self.left.rest();
        Some(lowest)
    }
}
