// Routes by value and their numbering.
#![tactic(auto)]

mod numbering; // the cell of a route
mod row; // a route as a row of places

pub use numbering::{cell_at, cells_before};
pub use row::{extended, is_route, receives, shortened, teller_of};
