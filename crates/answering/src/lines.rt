// The lines of an answer to an accepted file.
// Kept: room in the text, and a node below 16, are asked of each function: no type holds a text with a line, or settings with a node.
ghost use Rattle.std.specs.Prelude.{◌≡◌, ◌++◌, ◌+◌, ◌*◌, ◌<◌, ◌≤◌, length};
ghost use Rattle.scenario.specs.Answer.{role_of, summary_frame, line_of};
ghost use Rattle.answering.specs.Finish.{role_number, row_frame, row_text, SummaryFits};

use crate::text::{LONGEST, Text};
use delivery::Nodes;
use rules::{Settings, Summary};

// What a node's line says of the node, by its number there.
#[derive(Clone, Copy)]
enum Role {
    Sender = 0,
    Receiver = 1,
    Faulty = 2,
}

impl Role {
    fn number(self) -> u8
        ensures { result ≡ role_number self }
    {
        self as u8
    }
}

// A node's role: that of a sender or a receiver is to be fault-free.
#[tactic(auto, using(crate::proofs::AnswerText::role_faulty, crate::proofs::AnswerText::role_sender, crate::proofs::AnswerText::role_receiver))]
fn role_of(s: Settings, i: u8) -> Role
    requires { i < 16 }
    ensures { role_number result ≡ role_of s i }
{
    if Nodes(s.faults).contains(i) {
        Role::Faulty
    } else if u32::from(i) == s.sender {
        Role::Sender
    } else {
        Role::Receiver
    }
}

// Writes node i's line, with its word from the decision row.
fn put_node(text: &mut Text, s: Settings, row: &[u8], i: u8)
    requires few { i < 16 }
    requires word { 2 * i + 1 < length row.now }
    requires room { length text.old + 11 ≤ LONGEST }
    ensures { text.new ≡ text.old ++ line_of (row_frame s row.now i) }
{
    let at = 2 * i as usize;
    let role = role_of(s, i).number();
    text.put_line(&[0x11, i, role, row[at], row[at + 1]]);
}

// Writes the lines of all nodes, in ascending order.
pub fn put_nodes(text: &mut Text, s: Settings, row: &[u8])
    requires few { s.n ≤ 15 }
    requires words { length row.now ≡ 2 * s.n }
    requires room { length text.old + 11 * s.n ≤ LONGEST }
    ensures { text.new ≡ text.old ++ row_text s row.now s.n }
{
    for i in 0..s.n as u8 {
        put_node(text, s, row, i);
    }
}

// Writes the summary's line.
pub fn put_summary(text: &mut Text, y: Summary)
    requires fits { SummaryFits y }
    requires room { length text.old + 15 ≤ LONGEST }
    ensures { text.new ≡ text.old ++ line_of (summary_frame y) }
{
    let faults = y.faults as u8;
    let class = y.fault_class as u8;
    let [ties_high, ties_low] = (y.ties as u16).to_be_bytes();
    let [messages_high, messages_low] = (y.messages as u16).to_be_bytes();
    text.put_line(&[
        0x12,
        faults,
        class,
        ties_high,
        ties_low,
        messages_high,
        messages_low,
    ]);
}
