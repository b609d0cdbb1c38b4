//! The clashes of a sheet, as a walk keeps them.
ghost use Rattle.std.specs.Prelude.{◌≤◌};
ghost use Rattle.sheets.specs.Limits.{limit};

use sheets::Pairs;

mod answers;
mod methods;

/// The steps and clashes of a sheet, copied: a conflict graph.
#[derive(Clone, Copy)]
pub struct Conflicts {
    // how many steps there are, with or without clashes
    count: usize,
    // the pairs of steps that clash
    pairs: Pairs,
    ghost few: { count ≤ limit },
}
