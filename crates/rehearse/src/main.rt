//! The story of the escaped tabs: a small runbook, told from its steps on.
#![tactic(auto)]

mod reasons;
mod story;
mod telling;

use sheets::Fence;
use std::io;
use story::Step;
use telling::Teller;

// The runbook's steps, its clashes under no fence, one and two, and the calls that are refused.
fn main(rt: HostRuntime) -> io::Result<()> {
    let runbook = story::runbook();
    let teller = Teller::new(&rt, &runbook);
    teller.opening()?;
    teller.steps()?;
    teller.clashes("of the runbook", &runbook)?;
    let mut fence = Fence::new(runbook);
    teller.fence(&mut fence, Step::Join, Step::Count)?;
    teller.clashes("under the fence", &fence)?;
    let mut second = Fence::new(fence);
    teller.fence(&mut second, Step::Suppliers, Step::Unescape)?;
    teller.clashes("under the fence over the fence", &second)?;
    teller.refusals()
}
