// A route is a row of four places and a length. Where the exchange extends and reads one for every message, places are constants, by cases
// on the length: a loop over four places would cost it more.
// Kept: n, sender and route one by one, as in `numbering`.
ghost use Rattle.std.specs.Prelude.{◌≡◌, ◌≤◌, ◌<◌};
ghost use Rattle.rules.specs.Routes.{back, held, but_last, shorter, receiver, is_route, teller};
ghost use Rattle.rules.specs.Decision.{via};
ghost use Rattle.rules.specs.Answers.{row_of_route};
ghost use Rattle.routes.specs.Needs.{Extendable, Short};

use rules::Route;

// The route with a relay put before its receiver.
#[tactic(auto, unfolding(rules::specs::Answers::row_of_route, rules::specs::Decision::via, rules::specs::Routes::back, rules::specs::Routes::written))]
pub fn extended(r: Route, relay: u8) -> Route
    requires { Extendable r }
    ensures { result ≡ row_of_route (via relay (held r)) }
{
    let [a, b, c, _] = r.nodes;
    match r.len {
        1 => Route {
            nodes: [relay, a, 0, 0],
            len: 2,
        },
        2 => Route {
            nodes: [a, relay, b, 0],
            len: 3,
        },
        _ => Route {
            nodes: [a, b, relay, c],
            len: 4,
        },
    }
}

// The route without its last number: what its teller was told.
pub fn shortened(r: Route) -> Route
    requires { 0 < r.len }
    ensures { result ≡ shorter r }
{
    Route {
        len: r.len - 1,
        ..r
    }
}

// Who tells a route's receiver: the number before the last, and the sender where there is none.
#[tactic(auto, unfolding(rules::specs::Routes::back))]
pub fn teller_of(r: Route, sender: u8) -> u8
    requires { Short r }
    ensures { result ≡ teller sender (but_last (held r)) }
{
    let [a, b, c, _] = r.nodes;
    match r.len {
        4 => c,
        3 => b,
        2 => a,
        _ => sender,
    }
}

// Whether a node may receive on top of the first k numbers of a row: it is one of n, and neither the sender nor among them.
pub fn receives(n: u8, sender: u8, r: Route, k: usize, x: u8) -> bool
    requires { k ≤ 4 }
    ensures { result ≡ receiver n sender (back r.nodes k) x }
{
    // Kept: not `contains`, with which the cell of a route costs half as much again and the route of a cell nearly twice as much.
    x < n && x != sender && r.nodes[..k].iter().all(|&used| used != x)
}

// Whether a row is a route. Its length is judged first: places beyond the fourth are never read.
pub fn is_route(n: u8, m: u32, sender: u8, r: Route) -> bool
    requires { m ≤ 3 }
    ensures { result ≡ is_route n m sender (held r) }
{
    if r.len == 0 || r.len > m + 1 {
        return false;
    }
    (0..r.len as usize).all(|k| receives(n, sender, r, k, r.nodes[k]))
}
