// A file taken as its bytes come.
ghost use Rattle.std.specs.Prelude.{◌≡◌};
ghost use Rattle.scenario.specs.Reasons.{desk};
ghost use Rattle.scenario.specs.File.{fresh};
ghost use Rattle.scenario.specs.Feeding.{keeping, taken, fed};

use crate::judging::Desk;
use scenario::Reader;

// The reader before the first byte.
// Kept: the default under its name and clause.
#[tactic(auto, unfolding(scenario::specs::File::fresh))]
pub fn start() -> Reader
    ensures { result ≡ fresh }
{
    Reader::default()
}

// One more byte of the line begun; of a line that is too long no more than 19 are kept.
#[tactic(auto, unfolding(scenario::specs::Feeding::keeping))]
fn keep(mut r: Reader, byte: u8) -> Reader
    ensures { result ≡ keeping r byte }
{
    if r.count < 19 {
        r.held[usize::from(r.count)] = byte;
        r.count += 1;
    }
    r
}

impl Desk<'_> {
    ghost use Rattle.reading.specs.Steps.{at, Moved};

    // One byte: LF has the line judged, any other belongs to the line; after a refused line nothing changes.
    #[tactic(auto, unfolding(scenario::specs::Feeding::taken))]
    fn take_byte(&mut self, byte: u8)
        ensures { Moved self.old self.new (taken (at self.old) byte) }
    {
        // Kept: the refusal is a byte, as `Reader` says.
        if self.reader.refusal != 0 {
            return;
        }
        if byte == b'\n' {
            self.judge_line();
        } else {
            self.reader = keep(self.reader, byte);
        }
    }
}

// A piece of the file, whatever its length and wherever it was cut.
// Kept: reader, table and marks as a program lends them; `Desk` holds them while the piece is taken.
pub fn feed(r: Reader, piece: &[u8], table: &mut [u8], marks: &mut [u8]) -> Reader
    ensures { (result ≡ (fed (desk r table.old marks.old) piece.now).reader)
        × (table.new ≡ (fed (desk r table.old marks.old) piece.now).table)
        × (marks.new ≡ (fed (desk r table.old marks.old) piece.now).marks) }
{
    let mut desk = Desk {
        reader: r,
        table,
        marks,
    };
    for &byte in piece {
        desk.take_byte(byte);
    }
    desk.reader
}
