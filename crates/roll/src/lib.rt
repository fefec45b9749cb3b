// Checks 20 and 21: whether the roll is bad, and whether a session names a voter of the roll with that voter's weight. Paper: request (i).
#![tactic(auto)]

ghost use Rattle.std.specs.Prelude.{◌≡◌, MatchOption, IsTrue};
ghost use Rattle.model.specs.Roll.{rising, voter_numbers, is_bad_roll, GoodRoll, on_roll, on_roll_ok};
ghost use Rattle.state.specs.Reached.{item_at};

use fields::{Content, content_of, word};
use format::head::Head;
use format::limit::Limit;
use state::candidate::Candidate;

// How many pairs halving looks at, at most: a roll has fewer than 2 ^ 12.
const LOOKS: usize = 12;

// Whether the roll is bad (20): an odd word count, too many pairs, or voter numbers that do not rise strictly.
pub fn is_bad_roll(roll: &[u32]) -> bool
    ensures { result ≡ is_bad_roll roll.now }
{
    roll.len() % Limit::ROLL_ROW != 0 || roll.len() / Limit::ROLL_ROW > Limit::ROLL || !rising(roll)
}

// Whether the voter numbers of the pairs rise strictly.
fn rising(roll: &[u32]) -> bool
    ensures { result ≡ rising (voter_numbers roll.now) }
{
    let (pairs, _) = roll.as_chunks::<2>();
    pairs.iter().is_sorted_by(|pair, next| pair[0] < next[0])
}

// The words of a roll that is not bad.
#[derive(Clone, Copy)]
pub struct Roll<'a> {
    pub words: &'a [u32],
    pub ghost good: { ∥ GoodRoll words.now ∥₁ },
}

impl<'a> Roll<'a> {
    // The roll of these words, none where it is bad.
    pub fn new(words: &'a [u32]) -> Option<Roll<'a>>
        ensures { MatchOption result (IsTrue (is_bad_roll words.now)) (λ roll. roll.words.now ≡ words.now) }
    {
        if is_bad_roll(words) {
            return None;
        }
        Some(Roll { words })
    }

    // Whether it has that voter with that weight. The voter is found by halving what is left of the pairs.
    // Kept: it is proved that 12 looks are enough (docs/PROMISES.md); the library's `binary_search_by_key` promises no number of looks.
    pub fn has(&self, voter: u32, weight: u32) -> bool
        ensures { result ≡ on_roll self.now.words.now voter weight }
    {
        let (pairs, _) = self.words.as_chunks::<2>();
        let mut left = pairs;
        for look in 0..LOOKS {
            let mid = left.len() / 2;
            let Some(&[found, held]) = left.get(mid) else {
                return false;
            };
            if found == voter {
                return held == weight;
            }
            left = if found < voter {
                &left[mid + 1..]
            } else {
                &left[..mid]
            };
        }
        false
    }
}

// 21 not on the roll, of the item that is asked about: a session names a voter of the roll with that voter's weight.
pub fn on_roll_ok(next: &Candidate, roll: &Roll) -> bool
    ensures { result ≡ on_roll_ok (on_roll roll.now.words.now) (item_at next.now) }
{
    if next.known.item.head.code != Head::SESSION {
        return true;
    }
    let content = content_of(next);
    roll.has(
        word(content, Content::VOTER),
        word(content, Content::WEIGHT),
    )
}
