// The refusals that belong to what each kind of line says: an `01`, an `02` and an `03` line, and then what must be lent.
ghost use Rattle.std.specs.Prelude.{◌≡◌, length};
ghost use Rattle.rules.specs.Numbers.{RefusedOr};
ghost use Rattle.rules.specs.Refusals.{settings_refusal};
ghost use Rattle.scenario.specs.Reasons.{desk};
ghost use Rattle.reasons.specs.Steps.{lent_refusal, open_refusal, tell_refusal, close_refusal, said_refusal, Ready};

use conversions::cell_of_route;
use frames::is_marked;
use rules::{Refusal, Route, Settings};
use scenario::{Line, Reader};
use settings::{Judged, message_count};

// `WrongTable` and `FewMarks`: so many bytes of table and marks are too few for the settings.
// Kept: that the settings are accepted is asked here and of two callers, since a type that holds it would have to be made from a reader's
// settings in each of them.
fn lent_judged(s: Settings, table: usize, marks: usize) -> Result<(), Refusal>
    requires { settings_refusal s ≡ 0 }
    ensures { RefusedOr (lent_refusal s table marks) (λ _. Unit {0}) result }
{
    let cells = message_count(s.n, s.m);
    if table < 2 * cells {
        return Err(Refusal::WrongTable);
    }
    if marks < cells.div_ceil(8) {
        return Err(Refusal::FewMarks);
    }
    Ok(())
}

// An `01` line with these settings.
fn open_judged(s: Settings, table: usize, marks: usize) -> Result<(), Refusal>
    ensures { RefusedOr (open_refusal s table marks) (λ _. Unit {0}) result }
{
    Judged::try_from(s)?;
    lent_judged(s, table, marks)
}

// An `02` line with this route. The settings are accepted, so a route has a cell unless it is no route.
fn tell_judged(r: Reader, route: Route, table: &[u8], marks: &[u8]) -> Result<(), Refusal>
    requires { settings_refusal r.settings ≡ 0 }
    ensures { RefusedOr (tell_refusal (desk r table.now marks.now) route) (λ _. Unit {0}) result }
{
    let s = r.settings;
    let Ok(cell) = cell_of_route(s.n, s.m, s.sender, route) else {
        return Err(Refusal::Routeless);
    };
    if is_marked(marks, cell as usize) {
        return Err(Refusal::GivenBefore);
    }
    lent_judged(s, table.len(), marks.len())
}

// An `03` line with this count.
#[tactic(auto, unfolding(rules::specs::Refusals::first, scenario::specs::Reasons::lent_reasons))]
fn close_judged(r: Reader, count: u16, table: &[u8], marks: &[u8]) -> Result<(), Refusal>
    requires { settings_refusal r.settings ≡ 0 }
    ensures { RefusedOr (close_refusal (desk r table.now marks.now) count) (λ _. Unit {0}) result }
{
    if count != r.given {
        return Err(Refusal::WrongCount);
    }
    lent_judged(r.settings, table.len(), marks.len())
}

// A line that is in its place, by what it says.
pub fn said_judged(r: Reader, line: Line, table: &[u8], marks: &[u8]) -> Result<(), Refusal>
    requires { Ready r line }
    ensures { RefusedOr (said_refusal (desk r table.now marks.now) line) (λ _. Unit {0}) result }
{
    match line {
        Line::Opening(s) => open_judged(s, table.len(), marks.len()),
        Line::Telling { route, .. } => tell_judged(r, route, table, marks),
        Line::Closing(count) => close_judged(r, count, table, marks),
    }
}
