// The numbering of routes. A rank is built number by number, each by one step that serves every place. The exchange numbers a route for
// every word that a faulty node tells.
// Kept: n, the sender and a route are passed one by one, as the public functions of this crate take them: callers hold the first two among
// their settings and the route apart.
ghost use Rattle.std.specs.Prelude.{◌≡◌, ◌+◌, get_or};
ghost use Rattle.rules.specs.Routes.{back, held};
ghost use Rattle.rules.specs.Cells.{cells_before, digit, rank, cell};
ghost use Rattle.routes.specs.Needs.{Depth, Numbered, RankedTo, Apart};

use rules::Route;

// The cells of the rounds before round k, which are the routes of 1 to k numbers.
pub fn cells_before(n: usize, k: usize) -> usize
    requires { Depth n k }
    ensures { result ≡ cells_before n k }
{
    // Kept: by cases, since a loop over the rounds costs an exchange up to 16 instructions in a thousand more.
    if k == 0 {
        return 0;
    }
    let one = n - 1;
    if k == 1 {
        return one;
    }
    let two = one * (n - 2);
    if k == 2 {
        return one + two;
    }
    let three = two * (n - 3);
    if k == 3 {
        return one + two + three;
    }
    one + two + three + three * (n - 4)
}

// The digit of a number of a row: how many nodes below it are free beside the sender and the k numbers before it.
fn digit_of(sender: u8, r: Route, k: usize) -> usize
    requires { Apart sender r k }
    ensures { result ≡ digit sender (back r.nodes k) (get_or r.nodes k 0) }
{
    let a = r.nodes[k];
    let mut digits = usize::from(a) - usize::from(sender < a);
    for &used in &r.nodes[..k] {
        digits -= usize::from(used < a);
    }
    digits
}

// One number more: its route stands behind those of every lower rank, n-1-k each, and by its digit among its own.
fn next_rank(n: u8, sender: u8, r: Route, k: usize, place: usize) -> usize
    requires { RankedTo n sender r k place }
    ensures { result ≡ rank n sender (back r.nodes (k + 1)) }
{
    let width = usize::from(n) - 1 - k;
    place * width + digit_of(sender, r, k)
}

// The place of a route among those of its length.
fn rank_of(n: u8, sender: u8, r: Route) -> usize
    requires { Numbered n sender r }
    ensures { result ≡ rank n sender (held r) }
{
    // Kept: by cases, so that places are constants: a loop to the length costs an exchange up to a fourth more, one to four up to a thirteenth.
    let one = next_rank(n, sender, r, 0, 0);
    if r.len == 1 {
        return one;
    }
    let two = next_rank(n, sender, r, 1, one);
    if r.len == 2 {
        return two;
    }
    let three = next_rank(n, sender, r, 2, two);
    if r.len == 3 {
        return three;
    }
    next_rank(n, sender, r, 3, three)
}

// A route's cell.
pub fn cell_at(n: u8, sender: u8, r: Route) -> usize
    requires { Numbered n sender r }
    ensures { result ≡ cell n sender (held r) }
{
    let round = r.len as usize - 1;
    cells_before(usize::from(n), round) + rank_of(n, sender, r)
}
