// What a host asks, of numbers as they came. Every number is judged at the width at which it came: nothing is cut to a byte, and no
// sum can wrap, before that.
// Kept: n, m and the sender apart, as C gives them; once they are judged `Network` holds them.
ghost use Rattle.std.specs.Prelude.{◌≡◌, suc, ◌+◌, ◌*◌, length};
ghost use Rattle.rules.specs.Routes.{held};
ghost use Rattle.rules.specs.Cells.{cell, cells_before, route_at};
ghost use Rattle.rules.specs.Numbers.{RefusedOr};
ghost use Rattle.rules.specs.Refusals.{route_refusal, cell_refusal, part_refusal};
ghost use Rattle.rules.specs.Answers.{row_of_route, part_found, part_of};

use crate::network::Network;
use routes::{cell_at, cells_before, is_route};
use rules::{Refusal, Route};
use settings::{Layout, message_count};
use std::ops::Range;

// The cell of a route.
pub fn cell_of_route(n: u32, m: u32, sender: u32, r: Route) -> Result<u32, Refusal>
    ensures { RefusedOr (route_refusal n m sender r) (λ c. c ≡ cell n sender (held r)) result }
{
    let network = Network::judged(n, m, sender)?;
    if !is_route(network.n, m, network.sender, r) {
        return Err(Refusal::NoRoute);
    }
    Ok(cell_at(network.n, network.sender, r) as u32)
}

// The route of a cell.
pub fn route_of_cell(n: u32, m: u32, sender: u32, c: u32) -> Result<Route, Refusal>
    ensures { RefusedOr (cell_refusal n m sender c) (λ r. r ≡ row_of_route (route_at n m sender c)) result }
{
    let network = Network::judged(n, m, sender)?;
    if c as usize >= message_count(n, m) {
        return Err(Refusal::NoCell);
    }
    Ok(network.route_at(c as usize))
}

// Where one round's cells stand in a table of so many bytes.
pub fn round_place(n: u32, m: u32, bytes: usize, round: u32) -> Result<Range<u32>, Refusal>
    ensures { RefusedOr (part_refusal n m bytes round) (λ p. (p.start ≡ 2 * cells_before n round) × (p.end ≡ 2 * cells_before n (suc round))) result }
{
    Layout::judged(n, m)?;
    if bytes != 2 * message_count(n, m) {
        return Err(Refusal::WrongTable);
    }
    if round > m {
        return Err(Refusal::NoRound);
    }
    let start = 2 * cells_before(n as usize, round as usize);
    let end = 2 * cells_before(n as usize, round as usize + 1);
    Ok(start as u32..end as u32)
}

// That part of the caller's own table; an empty one where the call is refused.
pub fn round_part(n: u32, m: u32, table: &[u8], round: u32) -> &[u8]
    ensures { (result.now ≡ part_of n m table.now round) × (result.ref_ptr ≡ (table.entry.ref_ptr.0, (part_found n m (length table.now) round).start + table.entry.ref_ptr.1)) }
{
    let place = round_place(n, m, table.len(), round).unwrap_or(0..0);
    &table[place.start as usize..place.end as usize]
}
