// What the frames of the three kinds hold. A frame is a row of nine bytes, with zeros behind its last.
// Kept: a kind is the byte that a file has, matched in `size_of` and `line_in`: an enum of kinds would be made of it to be matched once.
ghost use Rattle.std.specs.Prelude.{◌≡◌, ◌+◌, ◌*◌, ◌≤◌};
ghost use Rattle.scenario.specs.Frames.{byte_in, settings_in, route_in, word_told, count_in, line_in};
ghost use Rattle.scenario.specs.Reasons.{size_of};

use rules::{Route, Settings};
use scenario::Line;

// The byte count of a frame's kind.
#[tactic(auto, unfolding(scenario::specs::Reasons::size_of))]
pub fn size_of(frame: [u8; 9]) -> usize
    ensures { result ≡ size_of frame }
{
    match frame[0] {
        1 => 9,
        2 => 4 + usize::from(frame[1]),
        _ => 3,
    }
}

// `01`: N, m, u, sender, value, fault word.
#[tactic(auto, unfolding(scenario::specs::Frames::settings_in))]
pub fn settings_in(frame: [u8; 9]) -> Settings
    ensures { result ≡ settings_in frame }
{
    Settings {
        n: u32::from(frame[1]),
        m: u32::from(frame[2]),
        u: u32::from(frame[3]),
        sender: u32::from(frame[4]),
        value: u16::from_be_bytes([frame[5], frame[6]]),
        faults: u16::from_be_bytes([frame[7], frame[8]]),
    }
}

// `02`: L and the four places behind it.
#[tactic(auto, unfolding(scenario::specs::Frames::route_in))]
pub fn route_in(frame: [u8; 9]) -> Route
    ensures { result ≡ route_in frame }
{
    Route {
        nodes: [frame[2], frame[3], frame[4], frame[5]],
        len: u32::from(frame[1]),
    }
}

// `02`: the word behind the L node numbers.
#[tactic(auto, unfolding(scenario::specs::Frames::word_told))]
pub fn word_told(frame: [u8; 9]) -> u16
    requires { byte_in frame 1 ≤ 5 }
    ensures { result ≡ word_told frame }
{
    let at = 2 + usize::from(frame[1]);
    u16::from_be_bytes([frame[at], frame[at + 1]])
}

// `03`: the number of `02` lines.
#[tactic(auto, unfolding(scenario::specs::Frames::count_in))]
pub fn count_in(frame: [u8; 9]) -> u16
    ensures { result ≡ count_in frame }
{
    u16::from_be_bytes([frame[1], frame[2]])
}

// What a frame says whose size is its kind's; an unknown kind is read as an `03` line.
#[tactic(auto, unfolding(scenario::specs::Frames::line_in, scenario::specs::Reasons::size_of))]
pub fn line_in(frame: [u8; 9]) -> Line
    requires { size_of frame ≤ 9 }
    ensures { result ≡ line_in frame }
{
    match frame[0] {
        1 => Line::Opening(settings_in(frame)),
        2 => Line::Telling {
            route: route_in(frame),
            word: word_told(frame),
        },
        _ => Line::Closing(count_in(frame)),
    }
}
