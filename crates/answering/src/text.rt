// The text of an answer: frames written as lines of digits, each ended by LF.
ghost use Rattle.std.specs.Prelude.{◌≡◌, [], ◌∷◌, ◌++◌, ◌+◌, ◌*◌, ◌/◌, ◌%◌, ◌<◌, length};
ghost use Rattle.scenario.specs.Hex.{digit_of};
ghost use Rattle.scenario.specs.Answer.{line_of};
ghost use Rattle.answering.specs.Finish.{length_after, out_after};

use frames::digit_of;
use std::marker::Model;

// No answer is longer: eleven bytes for each of 15 nodes, and fifteen for the summary.
pub const LONGEST: usize = 180;

// A text that is being written: so many first bytes of its room.
// Kept: an array with its length beside it, since nothing is allocated; `Model` shows the text. That there is room is asked of each function
// that writes: no type holds a text with the line to come.
#[derive(Drop)]
pub struct Text {
    bytes: [u8; LONGEST],
    len: usize,
}

impl Model for Text {
    ghost use Rattle.std.specs.Prelude.{List, ℕ, ◌≤◌, take};
    ghost use Rattle.answering.specs.declared.text.TheConstants.{LONGEST};

    ghost Value = { List ℕ };

    ghost view = { λ a. take a.len a.bytes };

    ghost invariant = { λ a. a.len ≤ LONGEST };
}

impl Text {
    pub fn new() -> Text
        ensures { result ≡ [] }
    {
        Text {
            bytes: [0; LONGEST],
            len: 0,
        }
    }

    // Writes one byte more.
    fn push(&mut self, byte: u8)
        requires { length self.old < LONGEST }
        ensures { self.new ≡ self.old ++ byte ∷ [] }
    {
        self.bytes[self.len] = byte;
        self.len += 1;
    }

    // Writes a byte as two digits.
    fn put_byte(&mut self, byte: u8)
        requires { length self.old + 1 < LONGEST }
        ensures { self.new ≡ self.old ++ digit_of (byte / 16) ∷ digit_of (byte % 16) ∷ [] }
    {
        self.push(digit_of(byte / 16));
        self.push(digit_of(byte % 16));
    }

    // Writes a frame as a line, which ends with LF.
    pub fn put_line(&mut self, frame: &[u8])
        requires { length self.old + 2 * length frame.now < LONGEST }
        ensures { self.new ≡ self.old ++ line_of frame.now }
    {
        for &byte in frame {
            self.put_byte(byte);
        }
        self.push(b'\n');
    }

    // Copies the text into a buffer, if it fits, and returns how much of it is the text then.
    pub fn copy_to(&self, out: &mut [u8]) -> usize
        ensures { (result ≡ length_after out.old self.now) × (out.new ≡ out_after out.old self.now) }
    {
        let n = self.len;
        if out.len() < n {
            return 0;
        }
        out[..n].copy_from_slice(&self.bytes[..n]);
        n
    }
}
