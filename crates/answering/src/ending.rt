// The end of the input: why a file is refused there, or the exchange that is played, and the answer.
ghost use Rattle.std.specs.Prelude.{◌≡◌, [], ◌∷◌};
ghost use Rattle.rules.specs.Numbers.{number_of};
ghost use Rattle.scenario.specs.File.{table_given};
ghost use Rattle.scenario.specs.Answer.{refusal_frame, text_of, played_frames};
ghost use Rattle.scenario.specs.Feeding.{finished};
ghost use Rattle.answering.specs.Finish.{Ended, Playable, out_after, length_after};

use crate::lines::{put_nodes, put_summary};
use crate::text::Text;
use exchange::exchange;
use reasons::stage_of;
use rules::{Refusal, Settings};
use scenario::{Reader, Stage};
use settings::message_count;

// What is said of a refused file: the number of its refusal, and the refused line, counted from 1; 0 where no line was refused.
// Kept: the number is a byte, since a forged reader may hold any, and 0 is how an answer writes that there is no line.
#[derive(Clone, Copy)]
struct Refused {
    number: u8,
    line: u16,
}

// What is said where no line was refused.
impl From<Refusal> for Refused {
    ghost from_gives = { λ e r. r ≡ record { number = number_of e; line = 0 } };

    fn from(e: Refusal) -> Refused {
        Refused {
            number: e.number(),
            line: 0,
        }
    }
}

// Is the file refused, at a line or at the end of the input?
fn end_judged(r: Reader, table: &[u8]) -> Result<(), Refused>
    ensures { Ended r table.now result }
{
    // Kept: the refusal is a byte, as `Reader` says.
    if r.refusal != 0 {
        return Err(Refused {
            number: r.refusal,
            line: r.lines,
        });
    }
    if stage_of(r) != Stage::Closed || r.count != 0 {
        return Err(Refusal::CutShort.into());
    }
    if table.len() < 2 * message_count(r.settings.n, r.settings.m) {
        return Err(Refusal::WrongTable.into());
    }
    Ok(())
}

// The answer to a file that was refused.
fn refused_text(refused: Refused) -> Text
    ensures { result ≡ text_of (refusal_frame refused.number refused.line ∷ []) }
{
    let [high, low] = refused.line.to_be_bytes();
    let mut text = Text::new();
    text.put_line(&[0x1f, refused.number, high, low]);
    text
}

// The answer to a file that was accepted: the exchange on the first 2M bytes of the table, with a row of its own.
// Kept: settings and table apart, as the reader and its program hold them.
fn played_text(s: Settings, table: &[u8]) -> Text
    requires { Playable s table.now }
    ensures { result ≡ text_of (played_frames s (table_given s table.now)) }
{
    let bytes = 2 * message_count(s.n, s.m);
    let mut room = [0u8; 30];
    let row = &mut room[..2 * s.n as usize];
    let summary = exchange(s, &table[..bytes], row).unwrap();
    let mut text = Text::new();
    put_nodes(&mut text, s, row);
    put_summary(&mut text, summary);
    text
}

// The answer to a file that was refused, written into the lent buffer if it fits: it is one line of nine bytes.
#[tactic(auto, using(crate::proofs::AnswerText::refusal_none, crate::proofs::AnswerText::refusal_kept))]
fn write_refusal(refused: Refused, out: &mut [u8]) -> usize
    ensures { (result ≡ length_after out.old (text_of (refusal_frame refused.number refused.line ∷ []))) × (out.new ≡ out_after out.old (text_of (refusal_frame refused.number refused.line ∷ []))) }
{
    if out.len() < 9 {
        return 0;
    }
    refused_text(refused).copy_to(out)
}

// The answer to a file that was accepted, written into the lent buffer if it fits: eleven bytes for each node, and fifteen. That is asked
// before the exchange, so that none is played for nothing.
fn write_played(s: Settings, table: &[u8], out: &mut [u8]) -> usize
    requires { Playable s table.now }
    ensures { (result ≡ length_after out.old (text_of (played_frames s (table_given s table.now)))) × (out.new ≡ out_after out.old (text_of (played_frames s (table_given s table.now)))) }
{
    if out.len() < 11 * s.n as usize + 15 {
        return 0;
    }
    played_text(s, table).copy_to(out)
}

// At the end of the input: writes the answer into the lent buffer, if it fits, and returns how long it is.
pub fn finish(r: Reader, table: &[u8], out: &mut [u8]) -> usize
    ensures { (result ≡ length_after out.old (finished r table.now)) × (out.new ≡ out_after out.old (finished r table.now)) }
{
    match end_judged(r, table) {
        Ok(()) => write_played(r.settings, table, out),
        Err(refused) => write_refusal(refused, out),
    }
}
