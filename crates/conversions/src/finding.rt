// From a cell back to its route: its round, its place there, and the numbers of that place.
ghost use Rattle.std.specs.Prelude.{◌≡◌, ◌+◌, ◌≤◌, get_or};
ghost use Rattle.rules.specs.Routes.{held, receivers};
ghost use Rattle.rules.specs.Cells.{round_of, route_at, unrank};
ghost use Rattle.rules.specs.Answers.{row_of_route};

use crate::network::Network;
use routes::{cells_before, receives};
use rules::Route;

impl Network {
    // The route of a cell.
    pub fn route_at(self, c: usize) -> Route
        ensures { result ≡ row_of_route (route_at self.n self.m self.sender c) }
    {
        let round = self.round_of(c);
        self.route_at_place(round + 1, c - cells_before(usize::from(self.n), round))
    }

    // The round in which a cell stands, of rounds 0 to m.
    fn round_of(self, c: usize) -> usize
        ensures { result ≡ round_of self.n self.m c }
    {
        let n = usize::from(self.n);
        for k in (1..=usize::from(self.m)).rev() {
            if c >= cells_before(n, k) {
                return k;
            }
        }
        0
    }

    // The node that has d free ones below it, beside a route: the d-th of those who may receive on top of it.
    // Kept: 0 where there is none, as the definition of a cell's route has it; a cell below M always has one.
    fn nth_receiver(self, r: Route, d: usize) -> u8
        requires { r.len ≤ 4 }
        ensures { result ≡ get_or (receivers self.n self.sender (held r)) d 0 }
    {
        let len = r.len as usize;
        (0..self.n)
            .filter(|&x| receives(self.n, self.sender, r, len, x))
            .nth(d)
            .unwrap_or(0)
    }

    // The route of so many numbers at a place among those of its length: the route one shorter, and one number more.
    #[tactic(auto, unfolding(rules::specs::Answers::row_of_route, rules::specs::Routes::written, rules::specs::Cells::unrank))]
    fn route_at_place(self, len: usize, place: usize) -> Route
        requires { len ≤ self.m + 1 }
        ensures { result ≡ row_of_route (unrank self.n self.sender len place) }
    {
        if len == 0 {
            return Route::default();
        }
        let k = len - 1;
        let width = usize::from(self.n) - 1 - k;
        let mut r = self.route_at_place(k, place / width);
        r.nodes[k] = self.nth_receiver(r, place % width);
        Route {
            len: len as u32,
            ..r
        }
    }
}
