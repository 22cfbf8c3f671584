// Scenario files: bytes are fed to a reader that passes by value, over a lent table and lent marks.
#![tactic(auto)]

use rules::{Route, Settings};

// A file read so far.
// Kept: stage, refusal and count are bytes and the line an array: `feed` and `finish` take a reader of any bytes, what is answered to a
// forged one is stated (`LineTable: stage-forged`), and nothing is allocated.
#[derive(Clone, Copy, Default)]
pub struct Reader {
    // the number of a `Stage`
    pub stage: u8,
    // what the `01` line gave
    pub settings: Settings,
    // how many `02` lines were accepted
    pub given: u16,
    // how many lines were judged; where one was refused it is the last of them
    pub lines: u16,
    // why a line was refused; 0 while none was
    pub refusal: u8,
    // the line begun: its first bytes, and how many of them there are
    pub held: [u8; 19],
    pub count: u8,
}

// What a line says, once it is known to be a frame of its kind.
#[derive(Clone, Copy)]
pub enum Line {
    // `01`
    Opening(Settings),
    // `02`
    Telling { route: Route, word: u16 },
    // `03`: how many `02` lines there were
    Closing(u16),
}

// How far a file has come.
#[derive(Clone, Copy, PartialEq, Eq, Debug)]
pub enum Stage {
    // no `01` line yet
    Before = 0,
    // behind the `01` line
    Opened = 1,
    // behind the `03` line
    Closed = 2,
}
