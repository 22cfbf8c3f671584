// Why a line of a scenario file is refused: the numbers in their order, over a reader, a lent table and lent marks that stay as they are.
#![tactic(auto)]

mod kinds; // what each kind of line must say
mod lines; // a whole line

pub use lines::{line_judged, stage_of};
