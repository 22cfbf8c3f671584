// What a host asks of routes: the cell of a route, the route of a cell, and one round's part of a table, of numbers as they came.
#![tactic(auto)]

mod asked; // what a host asks
mod finding; // the route of a cell
mod network; // nodes, rounds and a sender, judged

pub use asked::{cell_of_route, round_part, round_place, route_of_cell};
