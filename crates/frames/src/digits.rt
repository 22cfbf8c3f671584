// Hexadecimal digits and the bytes that they write.
ghost use Rattle.std.specs.Prelude.{◌≡◌, true, false, ◌+◌, ◌*◌, ◌<◌};
ghost use Rattle.rules.specs.Lists.{all};
ghost use Rattle.scenario.specs.Hex.{is_digit, digit_value, digit_of, frame_of};
ghost use Rattle.scenario.specs.Reasons.{no_frame};
ghost use Rattle.frames.specs.Rows.{frame_row};

// 0-9 or A-F.
#[tactic(auto, unfolding(scenario::specs::Hex::is_digit))]
fn is_digit(byte: u8) -> bool
    ensures { result ≡ is_digit byte }
{
    matches!(byte, b'0'..=b'9' | b'A'..=b'F')
}

// What a digit stands for.
#[tactic(auto, unfolding(scenario::specs::Hex::is_digit, scenario::specs::Hex::digit_value))]
fn digit_value(byte: u8) -> u8
    requires { is_digit byte ≡ true }
    ensures { result ≡ digit_value byte }
{
    if byte < b'A' {
        byte - b'0'
    } else {
        byte - b'A' + 10
    }
}

// The digit that stands for a number below 16.
#[tactic(auto, unfolding(scenario::specs::Hex::digit_of))]
pub fn digit_of(value: u8) -> u8
    requires { value < 16 }
    ensures { result ≡ digit_of value }
{
    if value < 10 {
        b'0' + value
    } else {
        b'A' + (value - 10)
    }
}

// Every byte of a line is a digit.
fn all_digits(line: &[u8]) -> bool
    ensures { result ≡ all is_digit line.now }
{
    line.iter().all(|byte| is_digit(*byte))
}

// The byte that two digits write.
fn byte_of(high: u8, low: u8) -> u8
    requires { (is_digit high ≡ true) × (is_digit low ≡ true) }
    ensures { result ≡ digit_value high * 16 + digit_value low }
{
    digit_value(high) * 16 + digit_value(low)
}

// `NoFrame`: a line of no digits, of an odd number or of more than 18, or with a byte that is none.
#[tactic(auto, unfolding(scenario::specs::Reasons::no_frame))]
pub fn no_frame(line: &[u8]) -> bool
    ensures { result ≡ no_frame line.now }
{
    line.is_empty() || line.len() % 2 != 0 || line.len() > 18 || !all_digits(line)
}

// The bytes that a line writes, with zeros behind them.
pub fn frame_of(line: &[u8]) -> [u8; 9]
    requires { no_frame line.now ≡ false }
    ensures { result ≡ frame_row (frame_of line.now) }
{
    let mut frame = [0u8; 9];
    for (i, digits) in line.chunks_exact(2).enumerate() {
        frame[i] = byte_of(digits[0], digits[1]);
    }
    frame
}
