// The content words of items, by their number in the content.
#![tactic(auto)]

ghost use Rattle.std.specs.Prelude.{◌≡◌, get_or};
ghost use Rattle.model.specs.Item.{word};
ghost use Rattle.model.specs.History.{item_no};
ghost use Rattle.index.specs.Passed.{history_of};
ghost use Rattle.state.specs.Reached.{item_at};

use format::size::Size;
use index::passed::Passed;
use state::candidate::Candidate;

pub mod range;

// Where in a content a word stands that has a meaning.
pub struct Content {}

impl Content {
    // A contest: its number.
    pub const CONTEST: usize = 0;

    // A threshold: the trustees m, and the threshold t.
    pub const TRUSTEES: usize = 0;

    pub const THRESHOLD: usize = 1;

    // An authorizer: the mode.
    pub const MODE: usize = 0;

    // A genesis: its traits, where it has such a word.
    pub const TRAITS: usize = Size::GENESIS;

    // A round: its number, and its contests up to its start and end.
    pub const ROUND: usize = 0;

    pub const ROUND_CONTESTS: usize = 1;

    // A session: its voter, its weight and, up to its end, its contests.
    pub const VOTER: usize = 0;

    pub const WEIGHT: usize = 1;

    pub const SESSION_CONTESTS: usize = Size::SESSION;

    // A confirmation: its trustees.
    pub const SET: usize = 0;
}

// The content words of the item that is asked about.
pub fn content_of<'a>(next: &Candidate<'a>) -> &'a [u32]
    ensures { result.now ≡ (item_at next.now).content }
{
    let item = next.known.item;
    words::part(next.board, item.content, item.head.count)
}

// Word k of a content, 0 where it has none.
pub fn word(content: &[u32], k: usize) -> u32
    ensures { result ≡ get_or content.now k 0 }
{
    content.get(k).copied().unwrap_or(0)
}

// Content word k of item number n of those that passed; 0 where it has none, or where there is no such item.
pub fn earlier_word(passed: &Passed, n: usize, k: usize) -> u32
    ensures { result ≡ word k (item_no (history_of passed.now) n) }
{
    if n == 0 || passed.count < n {
        return 0;
    }
    let item = passed.entry(n).item;
    word(words::part(passed.board, item.content, item.head.count), k)
}
