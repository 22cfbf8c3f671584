// One exchange of BYZ(m,m): it judges what it is given, decides for every fault-free receiver, writes the decision row and sums
// up. What is delivered, settings, votes and words come from the crates below.
#![tactic(auto)]

ghost use Rattle.std.specs.Prelude.{◌≡◌, length};
ghost use Rattle.rules.specs.Exchange.{played, row_after, class_of};
ghost use Rattle.rules.specs.Numbers.{RefusedOr};
ghost use Rattle.rules.specs.Refusals.{exchange_refusal};

mod judging; // what is turned away
mod deciding; // a receiver's entries and their vote
mod row; // the decision row

use delivery::Messages;
use judging::judged;
use row::play;
use rules::{Refusal, Settings, Summary};

// 1 if f ≤ m, 2 if m < f ≤ u, 3 if f > u.
// Kept: the class is a number, since the summary that C reads has it as one.
#[tactic(auto, unfolding(rules::specs::Exchange::class_of))]
fn class_of(f: u32, m: u32, u: u32) -> u32
    ensures { result ≡ class_of f m u }
{
    if f <= m {
        1
    } else if f <= u {
        2
    } else {
        3
    }
}

// One exchange. It refuses and leaves the row as it is, or fills the row and returns the summary. More faults than u are played like
// any others.
// Kept: settings and table apart, as they come; `Messages` holds them once they are judged.
pub fn exchange(s: Settings, table: &[u8], row: &mut [u8]) -> Result<Summary, Refusal>
    ensures answer { RefusedOr (exchange_refusal s (length table.now) (length row.old)) (λ y. y ≡ played s table.now) result }
    ensures row { row.new ≡ row_after s table.now row.old }
{
    let settings = judged(s, table.len(), row.len())?;
    let ties = play(&Messages { settings, table }, row);
    let faults = u16::count_ones(s.faults);
    let fault_class = class_of(faults, s.m, s.u);
    // a table that is accepted has a word for each message
    let messages = (table.len() / 2) as u32;
    Ok(Summary {
        refusal: 0,
        faults,
        fault_class,
        ties,
        messages,
    })
}
