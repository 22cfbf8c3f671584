// Deciding: a receiver's entries, each of them a decision of one round less, and the vote over them.
ghost use Rattle.std.specs.Prelude.{◌≡◌};
ghost use Rattle.rules.specs.Routes.{held};
ghost use Rattle.rules.specs.Decision.{byz};
ghost use Rattle.settings.specs.Judged.{settings_of};
ghost use Rattle.exchange.specs.Ready.{Ready};
ghost use Rattle.exchange.specs.Entries.{gathered};

use delivery::{Messages, Path};
use rules::Decided;
use std::marker::Model;
use votes::tally;
use words::put_word;

// What is gathered for a vote: the entries as it takes them, words in bytes, and the ties met on the way to them. Of 15 nodes there are
// 14 entries at the most.
// Kept: an array with its length beside it, since nothing is allocated; `Model` shows the entries that are there.
#[derive(Drop)]
struct Entries {
    bytes: [u8; 28],
    count: usize,
    ties: u32,
}

impl Model for Entries {
    ghost use Rattle.std.specs.Prelude.{◌*◌, ◌≤◌, take};
    ghost use Rattle.exchange.specs.Entries.{Gathered};

    ghost Value = { Gathered };

    ghost view = { λ e. record { bytes = take (2 * e.count) e.bytes; ties = e.ties } };

    ghost invariant = { λ e. e.count ≤ 14 };
}

impl Entries {
    ghost use Rattle.std.specs.Prelude.{[]};

    // None yet.
    fn new() -> Entries
        ensures { result ≡ record { bytes = []; ties = 0 } }
    {
        Entries {
            bytes: [0; 28],
            count: 0,
            ties: 0,
        }
    }

    fn words(&self) -> &[u8]
        ensures { result.now ≡ self.now.bytes }
    {
        &self.bytes[..2 * self.count]
    }

    fn ties(&self) -> u32
        ensures { result ≡ self.now.ties }
    {
        self.ties
    }
}

// What the path's receiver decides when its teller acts as sender, with so many rounds left: VOTE over its entries, with the
// threshold n-1-m, where n is N for a route of one number and one less for each number more.
#[cycle(decide_gather)]
pub fn decide(told: &Messages, path: Path, left: usize) -> Decided
    requires { Ready (settings_of told.now.settings) path.route left }
    ensures { result ≡ byz (settings_of told.now.settings) told.now.table.now left (held path.route) }
{
    let mut entries = Entries::new();
    gather(told, path, left, &mut entries);
    let threshold = usize::from(told.settings.n)
        - path.route.len as usize
        - usize::from(told.settings.m);
    let vote = tally(threshold, entries.words());
    Decided {
        word: vote.word,
        ties: entries.ties() + u32::from(vote.tie),
    }
}

// Gathers the entries: the receiver's own, and for each other receiver j what it decides when j acts as sender. Below BYZ(1,m) that is
// simply the word delivered.
// Kept: they are filled where they are voted on. Returned, they would be copied, which waits for the writes before it: a sixth of the time
// of an exchange among five nodes.
#[cycle(decide_gather)]
fn gather(told: &Messages, path: Path, left: usize, entries: &mut Entries)
    requires { Ready (settings_of told.now.settings) path.route left }
    ensures { entries.new ≡ gathered (settings_of told.now.settings) told.now.table.now left (held path.route) }
{
    let own = told.arrives(path);
    put_word(&mut entries.bytes, 0, own);
    // who is neither the sender nor on the route may receive
    let taken = path.used.with(told.settings.sender);
    // Kept: count and ties in locals until all entries are there. In the fields they would be counted in memory, and an exchange take a
    // tenth longer.
    let mut count: usize = 1;
    let mut ties: u32 = 0;
    for j in 0..told.settings.n {
        if !taken.contains(j) {
            let d = if left == 1 {
                Decided {
                    word: told.relayed(path, j),
                    ties: 0,
                }
            } else {
                decide(told, path.extended(j), left - 1)
            };
            put_word(&mut entries.bytes, count, d.word);
            count += 1;
            ties += d.ties;
        }
    }
    entries.count = count;
    entries.ties = ties;
}
