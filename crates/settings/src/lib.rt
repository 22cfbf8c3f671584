// Settings judged: what an exchange, a question about routes and a file are all turned away for, accepted settings in bytes, and how
// many messages they have. Every number is judged at the width at which it came: nothing is cut to a byte, and no sum can wrap, before that.
#![tactic(auto)]

ghost use Rattle.std.specs.Prelude.{◌≡◌, ◌+◌};
ghost use Rattle.rules.specs.Cells.{cells};
ghost use Rattle.rules.specs.Numbers.{RefusedOr};
ghost use Rattle.rules.specs.Refusals.{first, layout_reasons, settings_refusal};
ghost use Rattle.routes.specs.Needs.{Depth};
ghost use Rattle.settings.specs.Judged.{settings_of, LaidOut};

use routes::cells_before;
use rules::{Refusal, Settings};

// Settings that were judged: each number fits a byte and the whole a register.
#[derive(Clone, Copy)]
pub struct Judged {
    pub n: u8,
    pub m: u8,
    pub u: u8,
    pub sender: u8,
    pub value: u16,
    pub faults: u16,
}

// The refusal is the lowest of 1 to 7 that applies. 2m+u is computed wider than the numbers come. What was judged is small, so nothing is
// cut off.
impl TryFrom<Settings> for Judged {
    type Error = Refusal;

    ghost try_from_gives = { λ s r. RefusedOr (settings_refusal s) (λ j. settings_of j ≡ s) r };

    fn try_from(s: Settings) -> Result<Judged, Refusal> {
        let Settings { n, m, u, .. } = s;
        if n < 4 || n > 15 {
            return Err(Refusal::WrongNodes);
        }
        if m == 0 || m > 3 {
            return Err(Refusal::WrongRounds);
        }
        if u < m {
            return Err(Refusal::LowBound);
        }
        if u64::from(n) <= 2 * u64::from(m) + u64::from(u) {
            return Err(Refusal::TooFew);
        }
        if n <= s.sender {
            return Err(Refusal::NoSender);
        }
        if s.value > 65000 {
            return Err(Refusal::ReservedValue);
        }
        if s.faults >> n != 0 {
            return Err(Refusal::StrayFault);
        }
        Ok(Judged {
            n: n as u8,
            m: m as u8,
            u: u as u8,
            sender: s.sender as u8,
            value: s.value,
            faults: s.faults,
        })
    }
}

// Nodes and rounds that were judged where no u is taken.
#[derive(Clone, Copy)]
pub struct Layout {
    pub n: u8,
    pub m: u8,
}

impl Layout {
    // The refusal is the lowest of 1, 2 and 4 that applies.
    // Kept: the first two tests stand above too. One function for both would hide in which list of refusals each of them stands.
    #[tactic(auto, unfolding(rules::specs::Refusals::first, rules::specs::Refusals::layout_reasons, rules::specs::Refusals::wrong_nodes, rules::specs::Refusals::wrong_rounds, rules::specs::Refusals::too_few_alone))]
    pub fn judged(nodes: u32, rounds: u32) -> Result<Layout, Refusal>
        ensures { RefusedOr (first (layout_reasons nodes rounds)) (λ l. LaidOut nodes rounds l) result }
    {
        if nodes < 4 || nodes > 15 {
            return Err(Refusal::WrongNodes);
        }
        if rounds == 0 || rounds > 3 {
            return Err(Refusal::WrongRounds);
        }
        if nodes <= 3 * rounds {
            return Err(Refusal::TooFew);
        }
        Ok(Layout {
            n: nodes as u8,
            m: rounds as u8,
        })
    }
}

// M, the messages of an exchange among n nodes: one for each cell of rounds 0 to m.
// Kept: over two numbers, since an exchange, a question about routes and a file hold them in settings of three types.
#[tactic(auto, unfolding(rules::specs::Cells::cells))]
pub fn message_count(n: u32, m: u32) -> usize
    requires { Depth n (m + 1) }
    ensures { result ≡ cells n m }
{
    cells_before(n as usize, m as usize + 1)
}
