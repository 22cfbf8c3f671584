// VOTE over a list of words given as bytes: the one vote, for a host and for the exchange. An odd last byte is no entry.
// Kept: a list and a threshold, or a place and its word, are passed one by one, as a host gives them and as each function needs other ones.
#![tactic(auto)]

ghost use Rattle.std.specs.Prelude.{◌≡◌, ◌+◌, ◌*◌, ◌<◌, length, drop, eqb, leb};
ghost use Rattle.rules.specs.Lists.{count};
ghost use Rattle.rules.specs.Words.{word_at, plain, words_of};
ghost use Rattle.rules.specs.Vote.{vote};
ghost use Rattle.rules.specs.Numbers.{RefusedOr};
ghost use Rattle.rules.specs.Refusals.{vote_refusal};
ghost use Rattle.votes.specs.Needs.{Comparable, Candidate, AboveHalf};

use rules::{Outcome, Refusal};
use words::{plain_at, word_at};

// How many entries equal a word.
#[tactic(auto, using(crate::proofs::Entries::counting))]
fn count_of(list: &[u8], word: u16) -> usize
    ensures { result ≡ count (eqb word) (words_of list.now) }
{
    // Kept: this loop counts several entries at a time. By chunks with `filter` and `count` it takes half as long again, by the range with
    // them three times as long.
    let mut equal = 0;
    for i in 0..list.len() / 2 {
        if plain_at(list, i) == word {
            equal += 1;
        }
    }
    equal
}

// Whether so many entries from a place on equal a word.
fn reaches_from(threshold: usize, list: &[u8], place: usize, word: u16) -> bool
    requires { 2 * place < length list.now }
    ensures { result ≡ leb threshold (count (eqb word) (words_of (drop (2 * place) list.now))) }
{
    threshold <= count_of(&list[2 * place..], word)
}

// VOTE at any threshold: the first value that reaches it is kept, and a second one is a tie. An entry is counted from its own
// place on: where its value stands there first, that is its whole count, and elsewhere the value was judged before.
fn by_counts(threshold: usize, list: &[u8]) -> Outcome
    ensures { result ≡ vote threshold (words_of list.now) }
{
    let mut kept = None;
    for i in 0..list.len() / 2 {
        let entry = plain_at(list, i);
        if kept == Some(entry) || !reaches_from(threshold, list, i, entry) {
            continue;
        }
        if kept.is_some() {
            return Outcome { word: 0, tie: true };
        }
        kept = Some(entry);
    }
    Outcome {
        word: kept.unwrap_or(0),
        tie: false,
    }
}

// Whether an entry equals a word that is not reserved. The word as it stands is compared first, since that nearly always
// decides; a reserved one counts as the default.
#[tactic(auto, unfolding(rules::specs::Words::plain, rules::specs::Words::reserved))]
fn entry_is(list: &[u8], place: usize, word: u16) -> bool
    requires { Comparable list.now place word }
    ensures { result ≡ eqb word (plain (word_at list.now place)) }
{
    let entry = word_at(list, place);
    // Kept: as one expression of || and && this is tested in full for each entry, and a vote over 14 takes a third longer.
    if entry == word {
        return true;
    }
    if entry > 65000 {
        return word == 0;
    }
    false
}

// Whether all but `spare` entries, or more, equal the one in a place; given up at the first one too many that does not. Those before
// the place count among the others: where the value stands there first they are, and elsewhere it was judged before.
fn all_but(list: &[u8], place: usize, word: u16, spare: usize) -> bool
    requires { Candidate list.now place word spare }
    ensures { result ≡ leb (length (words_of list.now)) (count (eqb word) (words_of (drop (2 * place) list.now)) + spare) }
{
    let mut missed = place;
    for i in place + 1..list.len() / 2 {
        if !entry_is(list, i, word) {
            if missed == spare {
                return false;
            }
            missed += 1;
        }
    }
    true
}

// VOTE at a threshold above half of the entries, which all but `spare` reach: only one value can, and it stands among the
// first spare + 1 entries.
fn above_half(threshold: usize, list: &[u8], spare: usize) -> Outcome
    requires { AboveHalf threshold (words_of list.now) spare }
    ensures { result ≡ vote threshold (words_of list.now) }
{
    for place in 0..=spare {
        let word = plain_at(list, place);
        if all_but(list, place, word, spare) {
            return Outcome { word, tie: false };
        }
    }
    Outcome {
        word: 0,
        tie: false,
    }
}

// VOTE with a threshold. In an exchange it is above half of the entries at every level, where a pass or two mostly decide; the
// answer is VOTE's for every threshold.
pub fn tally(threshold: usize, list: &[u8]) -> Outcome
    ensures { result ≡ vote threshold (words_of list.now) }
{
    let entries = list.len() / 2;
    if threshold > entries {
        return Outcome {
            word: 0,
            tie: false,
        };
    }
    let spare = entries - threshold;
    if spare < threshold {
        return above_half(threshold, list, spare);
    }
    by_counts(threshold, list)
}

// The vote alone, for a host: a threshold of 0 and a list of odd length are turned away.
#[tactic(auto, unfolding(rules::specs::Refusals::first, rules::specs::Refusals::vote_reasons, rules::specs::Refusals::no_threshold, rules::specs::Refusals::odd_list))]
pub fn cast_vote(threshold: usize, list: &[u8]) -> Result<Outcome, Refusal>
    ensures { RefusedOr (vote_refusal threshold (length list.now)) (λ v. v ≡ vote threshold (words_of list.now)) result }
{
    if threshold == 0 {
        return Err(Refusal::NoThreshold);
    }
    if list.len() % 2 != 0 {
        return Err(Refusal::OddList);
    }
    Ok(tally(threshold, list))
}
