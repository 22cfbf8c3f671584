// Nodes and rounds that were judged, with a sender among the nodes: where a route has its cell, and a cell its route.
ghost use Rattle.std.specs.Prelude.{◌+◌, ◌<◌};
ghost use Rattle.routes.specs.Needs.{Depth};

use rules::Refusal;
use settings::Layout;

#[derive(Clone, Copy)]
pub struct Network {
    pub n: u8,
    pub m: u8,
    pub sender: u8,
    ghost deep: { Depth n (m + 1) },
    ghost node: { sender < n },
}

impl Network {
    ghost use Rattle.rules.specs.Numbers.{RefusedOr};
    ghost use Rattle.rules.specs.Refusals.{first};
    ghost use Rattle.conversions.specs.Among.{network_reasons, Among};

    // The refusal is the lowest of 1, 2, 4 and 5 that applies.
    // Kept: n, m and the sender apart, as C gives them.
    pub fn judged(n: u32, m: u32, sender: u32) -> Result<Network, Refusal>
        ensures { RefusedOr (first (network_reasons n m sender)) (λ w. Among n m sender w) result }
    {
        let layout = Layout::judged(n, m)?;
        if sender >= n {
            return Err(Refusal::NoSender);
        }
        Ok(Network {
            n: layout.n,
            m: layout.m,
            sender: sender as u8,
        })
    }
}
