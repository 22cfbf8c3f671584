// Sets of nodes, and routes that carry the set of their numbers.
ghost use Rattle.std.specs.Prelude.{◌≡◌, ◌<◌, ◌^◌, ◌∷◌, [], not, eqb};
ghost use Rattle.std.specs.Int.Bits.{bit_and, bit_or};
ghost use Rattle.rules.specs.Words.{faulty};
ghost use Rattle.rules.specs.Routes.{held};
ghost use Rattle.rules.specs.Decision.{via};
ghost use Rattle.rules.specs.Answers.{row_of_route};
ghost use Rattle.routes.specs.Needs.{Extendable};
ghost use Rattle.delivery.specs.Marks.{Marks};

use routes::extended;
use rules::Route;

// A set of nodes: bit i stands for node i, as in the fault word.
// Kept: a node is a byte, and that it is below 16 is asked where it meets a set. A type for it would be made at each call, of a counter, a
// settings' number or a place of a route.
#[derive(Clone, Copy)]
pub struct Nodes(pub u16);

impl Nodes {
    // Whether a node is in the set; in the fault word that is whether it is faulty.
    #[tactic(auto, unfolding(rules::specs::Words::faulty))]
    pub fn contains(self, node: u8) -> bool
        requires { node < 16 }
        ensures { result ≡ faulty self.0 node }
    {
        (self.0 >> node) % 2 == 1
    }

    // The set with one more node in it.
    pub fn with(self, node: u8) -> Nodes
        requires { node < 16 }
        ensures { result.0 ≡ bit_or self.0 (2 ^ node) }
    {
        Nodes(self.0 | (1 << node))
    }

    // Whether a node is in both sets.
    pub fn meets(self, other: Nodes) -> bool
        ensures { result ≡ not (eqb (bit_and self.0 other.0) 0) }
    {
        self.0 & other.0 != 0
    }
}

// A route and the set of its numbers, which says faster what the route says.
#[derive(Clone, Copy)]
pub struct Path {
    pub route: Route,
    pub used: Nodes,
    pub ghost marks: { Marks used.0 (held route) },
}

impl Path {
    // The route on which the sender tells a receiver.
    pub fn to(receiver: u8) -> Path
        requires { receiver < 16 }
        ensures route { result.route ≡ record { nodes = receiver ∷ 0 ∷ 0 ∷ 0 ∷ []; len = 1 } }
        ensures used { result.used.0 ≡ bit_or 0 (2 ^ receiver) }
    {
        Path {
            route: Route {
                nodes: [receiver, 0, 0, 0],
                len: 1,
            },
            used: Nodes(0).with(receiver),
        }
    }

    // The route with a relay put before its receiver.
    pub fn extended(self, relay: u8) -> Path
        requires relay { relay < 16 }
        requires room { Extendable self.route }
        ensures route { result.route ≡ row_of_route (via relay (held self.route)) }
        ensures used { result.used.0 ≡ bit_or self.used.0 (2 ^ relay) }
    {
        Path {
            route: extended(self.route, relay),
            used: self.used.with(relay),
        }
    }
}
