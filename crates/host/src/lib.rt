// What the package's C host is offered, on numbers and byte slices. Each function hands on what it got and judges nothing; its
// contract is what the function it calls answers, restated whole. C has no `Result`: the number of a refusal stands beside the values,
// 0 where nothing is refused, and beside a refusal every other field is its default. The crate host_c exports each to C under the
// same name.
// Kept: the numbers of a call apart, as C gives them.
#![tactic(auto)]

ghost use Rattle.std.specs.Prelude.{◌≡◌, [], ◌∷◌, length};
ghost use Rattle.rules.specs.Words.{settings};
ghost use Rattle.rules.specs.Exchange.{summary_of, row_after};
ghost use Rattle.rules.specs.Answers.{ballot_of, cell_found, route_found, part_found};

use rules::{Ballot, CellFound, Outcome, RoundPart, Route, RouteFound, Settings, Summary};

// One exchange: the decision row is written, or, where the call is refused, keeps its bytes.
#[tactic(auto, unfolding(rules::specs::Exchange::summary_of, rules::specs::Exchange::refused))]
pub fn tsegumbar_exchange(
    n: u32,
    m: u32,
    u: u32,
    sender: u32,
    value: u16,
    faults: u16,
    table: &[u8],
    row: &mut [u8],
) -> Summary
    ensures { (result ≡ summary_of (settings n m u sender value faults) table.now (length row.old)) × (row.new ≡ row_after (settings n m u sender value faults) table.now row.old) }
{
    let settings = Settings {
        n,
        m,
        u,
        sender,
        value,
        faults,
    };
    match exchange::exchange(settings, table, row) {
        Ok(summary) => summary,
        Err(e) => Summary {
            refusal: e.number().into(),
            ..Summary::default()
        },
    }
}

// The vote alone, over a list of words.
#[tactic(auto, unfolding(rules::specs::Answers::ballot_of))]
pub fn tsegumbar_vote(threshold: usize, list: &[u8]) -> Ballot
    ensures { result ≡ ballot_of threshold list.now }
{
    match votes::cast_vote(threshold, list) {
        Ok(Outcome { word, tie }) => Ballot {
            refusal: 0,
            word,
            tie,
        },
        Err(e) => Ballot {
            refusal: e.number().into(),
            ..Ballot::default()
        },
    }
}

// Route to cell; the route is its four places and its length.
#[tactic(auto, unfolding(rules::specs::Answers::cell_found))]
pub fn tsegumbar_cell_of_route(
    n: u32,
    m: u32,
    sender: u32,
    a: u8,
    b: u8,
    c: u8,
    d: u8,
    len: u32,
) -> CellFound
    ensures { result ≡ cell_found n m sender (record { nodes = a ∷ b ∷ c ∷ d ∷ []; len = len }) }
{
    let nodes = [a, b, c, d];
    match conversions::cell_of_route(n, m, sender, Route { nodes, len }) {
        Ok(cell) => CellFound { refusal: 0, cell },
        Err(e) => CellFound {
            refusal: e.number().into(),
            ..CellFound::default()
        },
    }
}

// Cell to route.
#[tactic(auto, unfolding(rules::specs::Answers::route_found, rules::specs::Answers::row_of_route, rules::specs::Routes::written))]
pub fn tsegumbar_route_of_cell(n: u32, m: u32, sender: u32, cell: u32) -> RouteFound
    ensures { result ≡ route_found n m sender cell }
{
    match conversions::route_of_cell(n, m, sender, cell) {
        Ok(route) => RouteFound { refusal: 0, route },
        Err(e) => RouteFound {
            refusal: e.number().into(),
            ..RouteFound::default()
        },
    }
}

// Where one round's part of a table starts and ends, in bytes.
#[tactic(auto, unfolding(rules::specs::Answers::part_found))]
pub fn tsegumbar_round_part(n: u32, m: u32, table: &[u8], round: u32) -> RoundPart
    ensures { result ≡ part_found n m (length table.now) round }
{
    match conversions::round_place(n, m, table.len(), round) {
        Ok(part) => RoundPart {
            refusal: 0,
            start: part.start,
            end: part.end,
        },
        Err(e) => RoundPart {
            refusal: e.number().into(),
            ..RoundPart::default()
        },
    }
}
