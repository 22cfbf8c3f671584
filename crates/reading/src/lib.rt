// Scenario files read: bytes are fed to a reader that passes by value, over a lent table and lent marks, and each line is judged
// as soon as it ends.
#![tactic(auto)]

mod feeding; // bytes as they come
mod judging; // what a line does

pub use feeding::{feed, start};
