// The answer to a scenario file, written into a lent buffer at the end of the input.
#![tactic(auto)]

mod ending; // refused, or played
mod lines; // the lines of nodes and summary
mod text; // digits and line ends

pub use ending::finish;
pub use text::LONGEST;
