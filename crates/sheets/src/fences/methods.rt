//! The calls that make a fence, fence pairs and give the sheet below back.
ghost use Rattle.std.specs.Prelude.{◌≡◌, ℕ, true, false};
ghost use Rattle.sheets.specs.Fences.{pairs_of, graph_of, fence_refusal, Gains};
ghost use Rattle.sheets.specs.Refusals.{outcome, Untouched};

use crate::fences::Fence;
use crate::interface::Sheet;
use crate::pairs::Pairs;
use crate::refusals::Refusal;

impl<S: Sheet> Fence<S> {
    /// A fence without pairs.
    #[tactic(auto, using(crate::proofs::FencePairs::clash_below))]
    pub fn new(below: S) -> Fence<S>
        ensures sheet { result.below ≡ below }
        ensures pairs { (p q : ℕ) → pairs_of result p q ≡ false }
        ensures clashes { (p q : ℕ) → (graph_of S.Sheet.graph result).clashes p q ≡ (S.Sheet.graph below).clashes p q }
    {
        Fence {
            below,
            pairs: Pairs::none(),
        }
    }

    /// Fences a pair of steps. Refused: 9 for a step with itself, then 10 for a step that is not below the count.
    pub fn fence(&mut self, i: usize, j: usize) -> Result<(), Refusal>
        ensures answer { outcome result ≡ fence_refusal (S.Sheet.graph self.old.below).steps i j }
        ensures sheet { self.new.below ≡ self.old.below }
        ensures pairs { Gains (outcome result) i j (pairs_of self.old) (pairs_of self.new) }
        ensures clashes { Gains (outcome result) i j (graph_of S.Sheet.graph self.old).clashes (graph_of S.Sheet.graph self.new).clashes }
        ensures again { pairs_of self.old i j ≡ true → (p q : ℕ) → pairs_of self.new p q ≡ pairs_of self.old p q }
        ensures same { Untouched (outcome result) self.old self.new }
    {
        if i == j {
            return Err(Refusal::SelfFence);
        }
        let n = self.below.count();
        if i >= n || j >= n {
            return Err(Refusal::OutOfRange);
        }
        self.pairs.add(i, j);
        Ok(())
    }

    /// The sheet below.
    pub fn below(&self) -> &S
        ensures { result.now ≡ self.now.below }
    {
        &self.below
    }

    /// Gives the sheet below back, and lets the fence go.
    pub fn into_below(self) -> S
        ensures { result ≡ self.below }
    {
        let Fence { below, pairs: _ } = self;
        below
    }
}
