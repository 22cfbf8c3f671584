// The program for one exchange: it moves the bytes of standard input to the reader of scenario files and writes the reader's
// answer. It judges nothing itself. A read that fails is no end of the input: then nothing is written.
#![tactic(auto)]

ghost use Rattle.std.specs.Prelude.{◌≡◌, ◌≢◌, ◌-◌, ◌^◌, IfOk, IfErr, OnOk, false, true, replicate};
ghost use Rattle.std.specs.Io.KnownBytes.{IsAtEnd};
ghost use Rattle.scenario.specs.File.{begun};
ghost use Rattle.play.specs.Pieces.{Fed, FedFrom, Loses};
ghost use Rattle.play.specs.Output.{Played, Failed};

use scenario::Reader;
use std::io;
use std::io::{Read, Write};
use std::marker::Model;

// Table and marks of the longest file that is accepted, in bytes.
const TABLE: usize = 52808;

const MARKS: usize = 3301;

// The reader and what is lent to it, seen as a desk.
#[derive(Drop)]
struct Session {
    reader: Reader,
    table: [u8; TABLE],
    marks: [u8; MARKS],
}

impl Model for Session {
    ghost use Rattle.scenario.specs.Reasons as scenario;

    ghost Value = { scenario.Desk };

    ghost view = { λ a. scenario.desk a.reader a.table a.marks };
}

impl Session {
    // Before the first byte.
    fn new() -> Session
        ensures { result ≡ begun (replicate TABLE 0) (replicate MARKS 0) }
    {
        Session {
            reader: reading::start(),
            table: [0; TABLE],
            marks: [0; MARKS],
        }
    }

    // Reads once and feeds what came. Returns how many bytes that were: none at the end of the input.
    fn read_some<R: Read>(&mut self, input: &mut R) -> io::Result<usize>
        ensures fed { Fed self.old self.new }

        // Where it is known which bytes the input has: what was fed is what it gave, its end is where it has none left, and it gave
        // some where more may come.
        ensures taken { FedFrom (R.remaining input.old) (R.remaining input.new) self.old self.new }
        ensures end { IfOk result (λ n. n ≡ 0 → IsAtEnd (R.remaining input.new)) }
        ensures more { IfOk result (λ n. n ≢ 0 → Loses (R.remaining input.old) (R.remaining input.new) 1) }
    {
        let mut buffer = [0u8; 65536];
        let n = input.read(&mut buffer)?;
        self.reader = reading::feed(self.reader, &buffer[..n], &mut self.table, &mut self.marks);
        Ok(n)
    }

    // Reads to the end of the input, and returns whether it was met. The reads are counted only so that the loop is seen to end.
    #[tactic(auto, using(crate::proofs::Feeding::fed_then))]
    fn read_all<R: Read>(&mut self, input: &mut R) -> io::Result<bool>
        ensures fed { Fed self.old self.new }

        // Where it is known which bytes the input has: what was fed is what it gave, its end is where it has none left, and reading
        // stops before that only where a read fails or after 2^64-1 bytes.
        ensures taken { FedFrom (R.remaining input.old) (R.remaining input.new) self.old self.new }
        ensures end { IfOk result (λ ended. ended ≡ true → IsAtEnd (R.remaining input.new)) }
        ensures more { IfOk result (λ ended. ended ≡ false → Loses (R.remaining input.old) (R.remaining input.new) (2 ^ 64 - 1)) }
    {
        for _ in 0..u64::MAX {
            let n = self.read_some(input)?;
            if n == 0 {
                return Ok(true);
            }
        }
        Ok(false)
    }
}

// Why the answer was not written, or not to its end.
#[derive(Debug, Drop)]
enum Failure {
    Reading(io::Error),
    Writing(io::Error),
}

// Reads the whole input and writes the answer to it.
fn play<R: Read, W: Write>(input: &mut R, output: &mut W) -> Result<(), Failure>
    // Where the bytes of both are known, as those of standard input and output are not: the input was read to its end, and the answer
    // to what it gave is written and nothing else; only where 2^64-1 reads did not come to an end is nothing written.
    ensures answer { OnOk result (Played (R.remaining input.old) (R.remaining input.new)
        (W.contents output.old) (W.contents output.new)) }

    // Where a read failed nothing is written, and where a write failed the input had come to its end.
    ensures unread { IfErr result (λ e. Failed e (R.remaining input.new) (W.contents output.old) (W.contents output.new)) }
{
    let mut session = Session::new();
    if !session.read_all(input).map_err(Failure::Reading)? {
        return Ok(());
    }
    let mut out = [0u8; answering::LONGEST];
    let n = answering::finish(session.reader, &session.table, &mut out);
    output.write_all(&out[..n]).map_err(Failure::Writing)
}

fn main(rt: HostRuntime) -> Result<(), Failure> {
    play(&mut rt.stdin(), &mut rt.stdout())
}
