// The word delivered on a route.
ghost use Rattle.std.specs.Prelude.{◌≡◌, ◌<◌, [], ◌∷◌, true};
ghost use Rattle.rules.specs.Words.{word_at, plain, faulty};
ghost use Rattle.rules.specs.Routes.{held, receiver};
ghost use Rattle.rules.specs.Cells.{cell};
ghost use Rattle.rules.specs.Decision.{via};
ghost use Rattle.rules.specs.Delivered.{delivered};
ghost use Rattle.settings.specs.Judged.{settings_of};
ghost use Rattle.delivery.specs.Told.{Given, Told, Relayed};

use crate::nodes::{Nodes, Path};
use routes::{cell_at, extended, shortened, teller_of};
use rules::Route;
use settings::Judged;
use words::plain_at;

// What an exchange is given: judged settings, and a table in which every route's cell lies.
#[derive(Clone, Copy)]
pub struct Messages<'a> {
    pub settings: Judged,
    pub table: &'a [u8],
    pub ghost given: { Given (settings_of settings) table.now },
}

impl<'a> Messages<'a> {
    // Whether a node is faulty.
    pub fn faulty(&self, node: u8) -> bool
        requires { node < 16 }
        ensures { result ≡ faulty self.now.settings.faults node }
    {
        Nodes(self.settings.faults).contains(node)
    }

    // What the cell of a route holds. Inlined, since an exchange asks it for every word that a faulty node tells.
    #[inline(always)]
    fn in_cell(&self, r: Route) -> u16
        requires { Told (settings_of self.now.settings) r }
        ensures { result ≡ plain (word_at self.now.table.now (cell self.now.settings.n self.now.settings.sender (held r))) }
    {
        plain_at(
            self.table,
            cell_at(self.settings.n, self.settings.sender, r),
        )
    }

    // A faulty teller tells what the cell holds. A fault-free one passes on the word that it was itself told, which stands on the
    // route without its last number; so the cell of a fault-free teller is never read. The sender, told by no one, has its value.
    pub fn delivered(&self, r: Route) -> u16
        requires { Told (settings_of self.now.settings) r }
        ensures { result ≡ delivered (settings_of self.now.settings) self.now.table.now (held r) }
    {
        if self.faulty(teller_of(r, self.settings.sender)) {
            return self.in_cell(r);
        }
        let heard = shortened(r);
        if heard.len == 0 {
            return self.settings.value;
        }
        self.delivered(heard)
    }

    // What the sender told a node: its value if it is fault-free, and else what that node's cell holds.
    fn sent(&self, to: u8) -> u16
        requires { receiver self.now.settings.n self.now.settings.sender [] to ≡ true }
        ensures { result ≡ delivered (settings_of self.now.settings) self.now.table.now (to ∷ []) }
    {
        if !self.faulty(self.settings.sender) {
            return self.settings.value;
        }
        self.in_cell(Path::to(to).route)
    }

    // The word delivered on a route, by the set of its numbers: where none of them is faulty, every relay passed on what it was told,
    // and that is what the sender told the first of them.
    pub fn arrives(&self, path: Path) -> u16
        requires { Told (settings_of self.now.settings) path.route }
        ensures { result ≡ delivered (settings_of self.now.settings) self.now.table.now (held path.route) }
    {
        if path.used.meets(Nodes(self.settings.faults)) {
            return self.delivered(path.route);
        }
        self.sent(path.route.nodes[0])
    }

    // The same on the route with one relay more: a faulty relay tells what its cell holds. The longer route is made only where a
    // number on it is faulty.
    pub fn relayed(&self, path: Path, relay: u8) -> u16
        requires { Relayed (settings_of self.now.settings) path.route relay }
        ensures { result ≡ delivered (settings_of self.now.settings) self.now.table.now (via relay (held path.route)) }
    {
        if self.faulty(relay) {
            return self.in_cell(extended(path.route, relay));
        }
        if path.used.meets(Nodes(self.settings.faults)) {
            return self.delivered(extended(path.route, relay));
        }
        let first = if path.route.len == 1 {
            relay
        } else {
            path.route.nodes[0]
        };
        self.sent(first)
    }
}
