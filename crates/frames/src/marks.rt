// One bit for each cell, the first cell in the lowest bit of the first byte.
// Kept: no set of nodes, which is one word and has each bit. Here a bit stands in a row of bytes that a host lends, and may be missing.
ghost use Rattle.std.specs.Prelude.{◌≡◌, ◌<◌, length, replicate};
ghost use Rattle.scenario.specs.Marks.{marked, mark, bits_of};

// A cell's mark is set. A bit that is not there is not set.
#[tactic(auto, unfolding(scenario::specs::Marks::marked))]
pub fn is_marked(marks: &[u8], cell: usize) -> bool
    ensures { result ≡ marked marks.now cell }
{
    marks
        .get(cell / 8)
        .is_some_and(|byte| (byte >> (cell % 8)) % 2 == 1)
}

// Sets a cell's mark; the other bits stay.
#[tactic(auto, unfolding(scenario::specs::Marks::mark))]
pub fn set_mark(marks: &mut [u8], cell: usize)
    requires { cell < bits_of marks.old }
    ensures { marks.new ≡ mark marks.old cell }
{
    let at = cell / 8;
    marks[at] |= 1 << (cell % 8);
}

// Sets every byte to 0.
// Kept: `fill(0)` under its name and clause.
pub fn clear(bytes: &mut [u8])
    ensures { bytes.new ≡ replicate (length bytes.old) 0 }
{
    bytes.fill(0);
}
