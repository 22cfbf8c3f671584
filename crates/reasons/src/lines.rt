// The refusals of a whole line: is it a frame, in its place and of its kind's size? Then what it says decides.
ghost use Rattle.std.specs.Prelude.{◌≡◌};
ghost use Rattle.rules.specs.Numbers.{RefusedOr};
ghost use Rattle.scenario.specs.Hex.{frame_of};
ghost use Rattle.scenario.specs.Frames.{line_in};
ghost use Rattle.scenario.specs.Reasons.{desk, stage_number, stage_of, out_of_place, line_refusal};
ghost use Rattle.scenario.specs.Feeding.{line_held};

use crate::kinds::said_judged;
use frames::{frame_of, line_in, no_frame, size_of};
use rules::Refusal;
use scenario::{Line, Reader, Stage};
use settings::Judged;

// The stage that a reader has reached. One with settings that would be refused, or at no known stage, has met no `01` line.
pub fn stage_of(r: Reader) -> Stage
    ensures { stage_number result ≡ stage_of r }
{
    if Judged::try_from(r.settings).is_err() {
        return Stage::Before;
    }
    match r.stage {
        1 => Stage::Opened,
        2 => Stage::Closed,
        _ => Stage::Before,
    }
}

// `OutOfPlace`: an unknown kind or one out of place.
// Kept: a kind is the byte that a file has, as in `frames`.
#[tactic(auto, unfolding(scenario::specs::Reasons::out_of_place, scenario::specs::Reasons::in_place))]
fn out_of_place(stage: Stage, kind: u8) -> bool
    ensures { result ≡ out_of_place (stage_number stage) kind }
{
    !matches!((stage, kind), (Stage::Before, 1) | (Stage::Opened, 2 | 3))
}

// The bytes of the line begun. A forged reader may count more of them than it holds.
fn line_held(r: &Reader) -> &[u8]
    ensures { result.now ≡ line_held r.now }
{
    &r.held[..usize::from(r.count).min(19)]
}

// What the line begun says, unless it is refused.
// Kept: reader, table and marks apart, here and in `kinds`. The one struct that holds them lends table and marks to be written; one that
// lends them to be read would be made in this function alone.
pub fn line_judged(r: Reader, table: &[u8], marks: &[u8]) -> Result<Line, Refusal>
    ensures { RefusedOr (line_refusal (desk r table.now marks.now) (line_held r)) (λ l. l ≡ line_in (frame_of (line_held r))) result }
{
    let held = line_held(&r);
    if no_frame(held) {
        return Err(Refusal::NoFrame);
    }
    let frame = frame_of(held);
    if out_of_place(stage_of(r), frame[0]) {
        return Err(Refusal::OutOfPlace);
    }
    if held.len() / 2 != size_of(frame) {
        return Err(Refusal::WrongSize);
    }
    let line = line_in(frame);
    said_judged(r, line, table, marks)?;
    Ok(line)
}
