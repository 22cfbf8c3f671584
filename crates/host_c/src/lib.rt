// What the package's C host calls: the functions that include/tsegumbar.h declares. Each is the function of the same name in the
// crate host, under the same contract.
// Kept: both crates, since this one is built as an archive for C, and such a crate can be no library for others; and the numbers of a call
// apart, as C gives them.
#![tactic(auto)]

ghost use Rattle.std.specs.Prelude.{◌≡◌, [], ◌∷◌, length};
ghost use Rattle.rules.specs.Words.{settings};
ghost use Rattle.rules.specs.Exchange.{summary_of, row_after};
ghost use Rattle.rules.specs.Answers.{ballot_of, cell_found, route_found, part_found};

use rules::{Ballot, CellFound, RoundPart, RouteFound, Summary};

// One exchange: the decision row is written, or, where the call is refused, keeps its bytes.
#[unsafe(no_mangle)]
pub extern "C" fn tsegumbar_exchange(
    n: u32,
    m: u32,
    u: u32,
    sender: u32,
    value: u16,
    faults: u16,
    table: &[u8],
    row: &mut [u8],
) -> Summary
    ensures { (result ≡ summary_of (settings n m u sender value faults) table.now (length row.old)) × (row.new ≡ row_after (settings n m u sender value faults) table.now row.old) }
{
    host::tsegumbar_exchange(n, m, u, sender, value, faults, table, row)
}

// The vote alone, over a list of words.
#[unsafe(no_mangle)]
pub extern "C" fn tsegumbar_vote(threshold: usize, list: &[u8]) -> Ballot
    ensures { result ≡ ballot_of threshold list.now }
{
    host::tsegumbar_vote(threshold, list)
}

// Route to cell; the route is its four places and its length.
#[unsafe(no_mangle)]
pub extern "C" fn tsegumbar_cell_of_route(
    n: u32,
    m: u32,
    sender: u32,
    a: u8,
    b: u8,
    c: u8,
    d: u8,
    len: u32,
) -> CellFound
    ensures { result ≡ cell_found n m sender (record { nodes = a ∷ b ∷ c ∷ d ∷ []; len = len }) }
{
    host::tsegumbar_cell_of_route(n, m, sender, a, b, c, d, len)
}

// Cell to route.
#[unsafe(no_mangle)]
pub extern "C" fn tsegumbar_route_of_cell(n: u32, m: u32, sender: u32, cell: u32) -> RouteFound
    ensures { result ≡ route_found n m sender cell }
{
    host::tsegumbar_route_of_cell(n, m, sender, cell)
}

// Where one round's part of a table starts and ends, in bytes.
#[unsafe(no_mangle)]
pub extern "C" fn tsegumbar_round_part(n: u32, m: u32, table: &[u8], round: u32) -> RoundPart
    ensures { result ≡ part_found n m (length table.now) round }
{
    host::tsegumbar_round_part(n, m, table, round)
}
