// One line judged: what it does to the reader, the lent table and the lent marks.
ghost use Rattle.std.specs.Prelude.{◌≡◌};
ghost use Rattle.rules.specs.Numbers.{number_of, RefusedOr};
ghost use Rattle.scenario.specs.Hex.{frame_of};
ghost use Rattle.scenario.specs.Frames.{line_in};
ghost use Rattle.scenario.specs.Reasons.{line_refusal};
ghost use Rattle.scenario.specs.Judging.{one_more, after, closed, refused_with, judged};
ghost use Rattle.scenario.specs.Feeding.{line_held};

use conversions::cell_of_route;
use frames::{clear, set_mark};
use reasons::line_judged;
use rules::{Refusal, Route, Settings};
use scenario::{Line, Reader, Stage};
use words::put_word;

// A reader with what is lent to it.
#[derive(Drop)]
pub struct Desk<'a> {
    pub reader: Reader,
    pub table: &'a mut [u8],
    pub marks: &'a mut [u8],
}

// One more, in a word.
#[tactic(auto, unfolding(scenario::specs::Judging::one_more))]
fn one_more(k: u16) -> u16
    ensures { result ≡ one_more k }
{
    k.saturating_add(1)
}

// A reader after a line, with nothing held.
#[tactic(auto, unfolding(scenario::specs::Judging::after))]
fn after_line(r: Reader) -> Reader
    ensures { result ≡ after r r.stage r.settings r.given r.refusal }
{
    Reader {
        lines: one_more(r.lines),
        held: [0; 19],
        count: 0,
        ..r
    }
}

impl Desk<'_> {
    ghost use Rattle.scenario.specs.declared.Line.TheVariants.{Opening};
    ghost use Rattle.reading.specs.Steps.{at, Moved, Tellable, Acceptable, told_by, done};

    // An accepted `01` line sets every byte of table and marks to 0.
    #[tactic(auto, unfolding(scenario::specs::Judging::after))]
    fn open(&mut self, s: Settings)
        ensures { Moved self.old self.new (done (at self.old) (Opening s)) }
    {
        clear(self.table);
        clear(self.marks);
        self.reader = Reader {
            stage: Stage::Opened as u8,
            settings: s,
            given: 0,
            refusal: 0,
            ..after_line(self.reader)
        };
    }

    // An accepted `02` line writes its word into its cell and sets that cell's mark.
    #[tactic(auto, unfolding(scenario::specs::Judging::after))]
    fn tell(&mut self, route: Route, word: u16)
        requires { Tellable (at self.old) route }
        ensures { Moved self.old self.new (told_by (at self.old) route word) }
    {
        let r = self.reader;
        let s = r.settings;
        let cell = cell_of_route(s.n, s.m, s.sender, route).unwrap() as usize;
        put_word(self.table, cell, word);
        set_mark(self.marks, cell);
        self.reader = Reader {
            stage: Stage::Opened as u8,
            given: one_more(r.given),
            refusal: 0,
            ..after_line(r)
        };
    }

    // An accepted `03` line changes neither table nor marks.
    #[tactic(auto, unfolding(scenario::specs::Judging::after, scenario::specs::Judging::closed))]
    fn close(&mut self)
        ensures { Moved self.old self.new (closed (at self.old)) }
    {
        self.reader = Reader {
            stage: Stage::Closed as u8,
            refusal: 0,
            ..after_line(self.reader)
        };
    }

    // What an accepted line does.
    fn accept(&mut self, line: Line)
        requires { Acceptable (at self.old) line }
        ensures { Moved self.old self.new (done (at self.old) line) }
    {
        match line {
            Line::Opening(s) => self.open(s),
            Line::Telling { route, word } => self.tell(route, word),
            Line::Closing(_) => self.close(),
        }
    }

    // What the line held says, unless it is refused. A function of its own, so that table and marks are lent to be read.
    fn line_judged(&self) -> Result<Line, Refusal>
        ensures { RefusedOr (line_refusal (at self.now) (line_held self.now.reader)) (λ l. l ≡ line_in (frame_of (line_held self.now.reader))) result }
    {
        line_judged(self.reader, self.table, self.marks)
    }

    // A refused line leaves its number with the reader and changes nothing else.
    #[tactic(auto, unfolding(scenario::specs::Judging::after, scenario::specs::Judging::refused_with))]
    fn refuse(&mut self, e: Refusal)
        ensures { Moved self.old self.new (refused_with (at self.old) (number_of e)) }
    {
        self.reader = Reader {
            refusal: e.number(),
            ..after_line(self.reader)
        };
    }

    // The line held, judged.
    pub fn judge_line(&mut self)
        requires { self.old.reader.refusal ≡ 0 }
        ensures { Moved self.old self.new (judged (at self.old) (line_held self.old.reader)) }
    {
        match self.line_judged() {
            Err(e) => self.refuse(e),
            Ok(line) => self.accept(line),
        }
    }
}
