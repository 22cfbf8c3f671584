// Judging: what an exchange is turned away for.
ghost use Rattle.std.specs.Prelude.{◌≡◌};
ghost use Rattle.rules.specs.Numbers.{RefusedOr};
ghost use Rattle.rules.specs.Refusals.{exchange_refusal};
ghost use Rattle.settings.specs.Judged.{settings_of};

use rules::{Refusal, Settings};
use settings::{Judged, message_count};

// The refusal is the lowest of 1 to 9 that applies, for a table and a row of so many bytes. What stands in the table is not looked at.
pub fn judged(s: Settings, table: usize, row: usize) -> Result<Judged, Refusal>
    ensures { RefusedOr (exchange_refusal s table row) (λ j. settings_of j ≡ s) result }
{
    let judged = Judged::try_from(s)?;
    if table != 2 * message_count(s.n, s.m) {
        return Err(Refusal::WrongTable);
    }
    if row != 2 * s.n as usize {
        return Err(Refusal::WrongRow);
    }
    Ok(judged)
}
