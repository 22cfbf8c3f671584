// The decision row.
ghost use Rattle.std.specs.Prelude.{◌≡◌, ◌<◌, ◌*◌, length};
ghost use Rattle.rules.specs.Exchange.{slot, row_of, tie_count};
ghost use Rattle.settings.specs.Judged.{settings_of};

use crate::deciding::decide;
use delivery::{Messages, Path};
use rules::Decided;
use words::put_word;

// Node i's slot: "not reported" for a faulty node, its value for a fault-free sender, its decision for a fault-free receiver.
fn slot(told: &Messages, i: u8) -> Decided
    requires { i < told.now.settings.n }
    ensures { result ≡ slot (settings_of told.now.settings) told.now.table.now i }
{
    if told.faulty(i) {
        Decided {
            word: 65535,
            ties: 0,
        }
    } else if i == told.settings.sender {
        Decided {
            word: told.settings.value,
            ties: 0,
        }
    } else {
        decide(told, Path::to(i), usize::from(told.settings.m))
    }
}

// Writes every slot's word into the row, and returns the ties met.
pub fn play(told: &Messages, row: &mut [u8]) -> u32
    requires { length row.old ≡ 2 * told.now.settings.n }
    ensures ties { result ≡ tie_count (settings_of told.now.settings) told.now.table.now }
    ensures row { row.new ≡ row_of (settings_of told.now.settings) told.now.table.now }
{
    let mut ties: u32 = 0;
    for i in 0..told.settings.n {
        let d = slot(told, i);
        put_word(row, usize::from(i), d.word);
        ties += d.ties;
    }
    ties
}
