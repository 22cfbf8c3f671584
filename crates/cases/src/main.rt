// The worked numbers of the paper that are not P1 to P14, and the slips seen before at depths 2 and 3, run through the library.
// The file stdout holds the answers as they were written down beforehand.
#![tactic(auto)]

use rules::{Refusal, Route, Settings};
use settings::Judged;
use std::fmt::Display;
use std::{fmt, io};

// What a call answers, as it is printed: 0 and its numbers, or the number of the refusal.
#[derive(Drop)]
struct Answer<const COUNT: usize>(Result<[u32; COUNT], Refusal>);

impl<const COUNT: usize> Display for Answer<COUNT> {
    fn fmt<W: fmt::Write>(&self, f: &mut fmt::Formatter<W>) -> fmt::Result {
        match self.0 {
            Ok(numbers) => {
                write!(f, "0")?;
                for number in numbers {
                    write!(f, " {number}")?;
                }
                Ok(())
            }
            Err(refusal) => write!(f, "{}", refusal.number()),
        }
    }
}

// The words of a row, as they are printed.
#[derive(Drop)]
struct Words<'a>(&'a [u8]);

impl<'a> Display for Words<'a> {
    fn fmt<W: fmt::Write>(&self, f: &mut fmt::Formatter<W>) -> fmt::Result {
        let (words, _) = self.0.as_chunks::<2>();
        for word in words {
            write!(f, " {}", u16::from_be_bytes(*word))?;
        }
        Ok(())
    }
}

// Sender 0 with value 7.
fn settings(n: u32, m: u32, u: u32, faults: u16) -> Settings {
    Settings {
        n,
        m,
        u,
        sender: 0,
        value: 7,
        faults,
    }
}

// A word for each cell of a table, in their order.
fn fill<F: FnMut() -> u16>(table: &mut [u8], mut next_word: F)
    requires { F.IsAlwaysCallable next_word }
{
    for cell in table.as_chunks_mut::<2>().0 {
        *cell = next_word().to_be_bytes();
    }
}

// An exchange over a table whose cells tell these words in their order, and the row that it leaves.
fn played<F: FnMut() -> u16>(
    rt: &impl Print,
    name: impl Display + Drop,
    s: Settings,
    table: &mut [u8],
    row: &mut [u8],
    next_word: F,
) -> io::Result<()>
    requires { F.IsAlwaysCallable next_word }
{
    fill(table, next_word);
    let summary = exchange::exchange(s, table, row);
    let answer = Answer(summary.map(|y| [y.faults, y.fault_class, y.ties, y.messages]));
    println!(rt; "{name}: {answer} row{}", Words(row))
}

// Words by a linear congruence from a seed: half of them are 7, a quarter 5, an eighth 6, and an eighth reserved.
#[derive(Drop)]
struct Congruence(u16);

impl Congruence {
    fn next_word(&mut self) -> u16 {
        self.0 = self.0.wrapping_mul(25173).wrapping_add(13849);
        match self.0 / 256 % 8 {
            0..=3 => 7,
            4 | 5 => 5,
            6 => 6,
            _ => 65535,
        }
    }
}

// Four nodes: M is 9, and route (3,2) is cell 8.
fn four_nodes(rt: &impl Print) -> io::Result<()> {
    played(
        rt,
        "four nodes",
        settings(4, 1, 1, 0),
        &mut [0; 18],
        &mut [0; 8],
        || 0,
    )?;
    let nodes = [3, 2, 0, 0];
    let cell = conversions::cell_of_route(4, 1, 0, Route { nodes, len: 2 });
    println!(rt; "route (3,2): {}", Answer(cell.map(|c| [c])))
}

// A threshold above the list's length.
fn high_threshold(rt: &impl Print) -> io::Result<()> {
    let outcome = votes::cast_vote(4, &[0, 1, 0, 1, 0, 1]);
    println!(rt;
        "threshold 4 of 3: {}",
        Answer(outcome.map(|v| [u32::from(v.word), u32::from(v.tie)]))
    )
}

// N, m and u on each side of a bound.
fn bounds(rt: &impl Print) -> io::Result<()> {
    let sides = [
        (7, 2, 2),
        (7, 1, 4),
        (7, 2, 3),
        (15, 3, 8),
        (15, 3, 9),
        (16, 0, 1),
        (7, 2, 1),
        (260, 1, 1),
    ];
    for (n, m, u) in sides {
        let judged = Judged::try_from(settings(n, m, u, 0));
        println!(rt; "settings {n} {m} {u}: {}", Answer(judged.map(|_| [])))?;
    }
    Ok(())
}

// Every cell tells 9, so each faulty node tells everybody 9. With N=7, m=1, u=4 the vote needs 5 of 6.
fn five_of_six(rt: &impl Print) -> io::Result<()> {
    for faults in [0x40, 0x60] {
        played(
            rt,
            "5 of 6",
            settings(7, 1, 4, faults),
            &mut [0; 72],
            &mut [0; 14],
            || 9,
        )?;
    }
    Ok(())
}

// Each of these tables gives another row under each slip: a threshold of more than half; m lowered with each level; the own entry
// from the table, or its own relay; a cell of a fault-free teller read; a relay that passes on its decision. At depth 2 there are eight
// nodes, 5 to 7 of them faulty, and 259 messages; at depth 3 eleven, 7 to 10 faulty, and 5,860.
fn slips(rt: &impl Print) -> io::Result<()> {
    for seed in [2, 4, 6, 7, 9] {
        let mut words = Congruence(seed);
        played(
            rt,
            format_args!("m=2 seed {seed}"),
            settings(8, 2, 3, 0xE0),
            &mut [0; 518],
            &mut [0; 16],
            || words.next_word(),
        )?;
    }
    for seed in [1, 4, 6, 8] {
        let mut words = Congruence(seed);
        played(
            rt,
            format_args!("m=3 seed {seed}"),
            settings(11, 3, 4, 0x780),
            &mut [0; 11720],
            &mut [0; 22],
            || words.next_word(),
        )?;
    }
    Ok(())
}

fn main(rt: HostRuntime) -> io::Result<()> {
    four_nodes(&rt)?;
    high_threshold(&rt)?;
    bounds(&rt)?;
    five_of_six(&rt)?;
    slips(&rt)
}
