// Words in rows of bytes: two bytes each, high byte first.
// Kept: that a place lies in a row is asked of it, under one name, by each function: a row is what a host lends, and no type holds it.
#![tactic(auto)]

ghost use Rattle.std.specs.Prelude.{◌≡◌};
ghost use Rattle.rules.specs.Words.{word_at, plain, put_word};
ghost use Rattle.words.specs.Places.{Holds};

// The word in a place of a row of bytes.
#[tactic(auto, unfolding(rules::specs::Words::word_at))]
pub fn word_at(bytes: &[u8], place: usize) -> u16
    requires { Holds bytes.now place }
    ensures { result ≡ word_at bytes.now place }
{
    let at = 2 * place;
    u16::from_be_bytes([bytes[at], bytes[at + 1]])
}

// The word in a place as it counts: a reserved one is the default.
#[tactic(auto, unfolding(rules::specs::Words::plain, rules::specs::Words::reserved))]
pub fn plain_at(bytes: &[u8], place: usize) -> u16
    requires { Holds bytes.now place }
    ensures { result ≡ plain (word_at bytes.now place) }
{
    let word = word_at(bytes, place);
    if word > 65000 { 0 } else { word }
}

// Puts a word into a place of a row of bytes; the other bytes stay.
#[tactic(auto, unfolding(rules::specs::Words::put_word))]
pub fn put_word(bytes: &mut [u8], place: usize, word: u16)
    requires { Holds bytes.old place }
    ensures { bytes.new ≡ put_word bytes.old place word }
{
    let at = 2 * place;
    let [high, low] = word.to_be_bytes();
    bytes[at] = high;
    bytes[at + 1] = low;
}
