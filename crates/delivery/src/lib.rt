// The word delivered on a route, and the sets of nodes that say it faster.
#![tactic(auto)]

mod nodes; // sets of nodes, and routes that carry one
mod told; // the word delivered on a route

pub use nodes::{Nodes, Path};
pub use told::Messages;
