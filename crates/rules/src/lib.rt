// The types that a definition of specs/ names. What the rules say is in specs/, what is true of them in proofs/, and the code that
// follows them in the crates above.
#![tactic(auto)]

ghost use Rattle.std.specs.Prelude.{◌≡◌};
ghost use Rattle.rules.specs.Numbers.{number_of};

// Why something is turned away. The conditions stand in `specs/Refusals` and, for files, in `scenario`; `specs/Numbers` has the number of
// each.
#[derive(Clone, Copy, PartialEq, Eq, Debug)]
pub enum Refusal {
    WrongNodes = 1,
    WrongRounds = 2,
    LowBound = 3,
    TooFew = 4,
    NoSender = 5,
    ReservedValue = 6,
    StrayFault = 7,
    WrongTable = 8,
    WrongRow = 9,
    FewMarks = 10,
    NoThreshold = 11,
    OddList = 12,
    NoRoute = 13,
    NoCell = 14,
    NoRound = 15,
    NoFrame = 20,
    OutOfPlace = 21,
    WrongSize = 22,
    Routeless = 23,
    GivenBefore = 24,
    WrongCount = 25,
    CutShort = 26,
}

impl Refusal {
    // The number that stands for it.
    pub fn number(self) -> u8
        ensures { result ≡ number_of self }
    {
        self as u8
    }
}

// All that is given to an exchange except the table and the decision row.
#[derive(Clone, Copy, Default)]
pub struct Settings {
    pub n: u32,
    pub m: u32,
    pub u: u32,
    pub sender: u32,
    pub value: u16,
    pub faults: u16,
}

// A row of up to four node numbers, in the order in which a file writes them, and its length.
// Kept: C has it so inside `RouteFound`, and nothing is allocated.
#[repr(C)]
#[derive(Clone, Copy, Default)]
pub struct Route {
    pub nodes: [u8; 4],
    pub len: u32,
}

// What a vote returns: its value, and whether it met a tie.
// Kept: `specs/Vote: vote` gives both, the value of a tie being the default.
#[derive(Clone, Copy)]
pub struct Outcome {
    pub word: u16,
    pub tie: bool,
}

// What a node decides, and how many of the votes behind it met a tie.
#[derive(Clone, Copy)]
pub struct Decided {
    pub word: u16,
    pub ties: u32,
}

// What an exchange returns; inside the library a refusal is an error, and here its number.
// Kept, like the four below: C reads the number beside the values.
#[repr(C)]
#[derive(Clone, Copy, Default)]
pub struct Summary {
    pub refusal: u32,
    pub faults: u32,
    pub fault_class: u32,
    pub ties: u32,
    pub messages: u32,
}

// What C gets of the vote alone.
// Kept: as `Summary`.
#[repr(C)]
#[derive(Clone, Copy, Default)]
pub struct Ballot {
    pub refusal: u32,
    pub word: u16,
    pub tie: bool,
}

// What C gets of the way from a route to its cell.
// Kept: as `Summary`.
#[repr(C)]
#[derive(Clone, Copy, Default)]
pub struct CellFound {
    pub refusal: u32,
    pub cell: u32,
}

// What C gets of the way from a cell to its route.
// Kept: as `Summary`.
#[repr(C)]
#[derive(Clone, Copy, Default)]
pub struct RouteFound {
    pub refusal: u32,
    pub route: Route,
}

// What C gets of where one round's part of a table starts and ends, in bytes.
// Kept: as `Summary`.
#[repr(C)]
#[derive(Clone, Copy, Default)]
pub struct RoundPart {
    pub refusal: u32,
    pub start: u32,
    pub end: u32,
}
