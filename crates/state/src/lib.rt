// The audit's running state: what the rules ask of the items so far, kept so that no rule searches for it.
#![tactic(auto)]

ghost use Rattle.std.specs.Prelude.{◌≡◌, List, ℕ, ◌+◌, ◌<◌, length, get_or};
ghost use Rattle.model.specs.Words.{between};
ghost use Rattle.model.specs.Counted.{counted};
ghost use Rattle.index.specs.Kept.{before, item_after};
ghost use Rattle.state.specs.After.{later, earliest, contests_after, slot_after};
ghost use Rattle.state.specs.Stands.{Stands};

use format::format::Format;
use format::head::Head;
use format::phase::Phase;
use index::addition::Addition;

pub mod candidate;
pub mod progress;

// Item numbers count from 1, and 0 says that there is none.
#[derive(Clone, Copy)]
pub struct State {
    // The place behind the items so far, their number, and that of the main items.
    pub place: usize,
    pub items: usize,
    pub mains: usize,
    // The last main item, the latest config item, the threshold, the latest authorizer, the first extraction intent.
    pub last: usize,
    pub config: usize,
    pub threshold: usize,
    pub authorizer: usize,
    pub intent: usize,
    // The contests that are defined, as a set of the widest kind, and the round in force under each number.
    pub contests: [u32; 8],
    pub rounds: [u32; 16],
    // The counted ballots.
    pub ballots: usize,
}

impl State {
    // The numbers that a round may have.
    pub const ROUNDS: usize = 16;

    // The state before the first item.
    pub fn new() -> Self
        ensures { (result.items ≡ 0) × ((board : List ℕ) → Stands board result) }
    {
        Self {
            place: 0,
            items: 0,
            mains: 0,
            last: 0,
            config: 0,
            threshold: 0,
            authorizer: 0,
            intent: 0,
            contests: [0; Format::WIDE],
            rounds: [0; State::ROUNDS],
            ballots: 0,
        }
    }

    // The state with the item after them, which passes; `ballots` is the number of counted ballots with it.
    pub fn after(self, addition: &Addition, ballots: usize) -> Self
        requires stands { Stands addition.now.board.now self }
        requires count { addition.now.count ≡ self.items }
        requires ballots_value { ballots ≡ length (counted (before addition.now.board.now (self.items + 1))) }
        ensures { (result.items ≡ self.items + 1) × (Stands addition.now.board.now result) }
    {
        let n = self.items + 1;
        let item = addition.known.item;
        let main = item.head.kind == Head::MAIN;
        let code = item.head.code;
        Self {
            place: item.end,
            items: n,
            mains: later(main, self.mains + 1, self.mains),
            last: later(main, n, self.last),
            config: later(is_config(code), n, self.config),
            threshold: earliest(code == Head::THRESHOLD, n, self.threshold),
            authorizer: later(code == Head::AUTHORIZER, n, self.authorizer),
            intent: earliest(code == Head::INTENT, n, self.intent),
            contests: contests_after(self.contests, addition),
            rounds: rounds_after(self.rounds, addition),
            ballots,
        }
    }
}

// The number of the last item that passes a test, where item n is the next: old without it.
fn later(test: bool, n: usize, old: usize) -> usize
    ensures { result ≡ later test n old }
{
    if test { n } else { old }
}

// The number of the first item that passes a test, where item n is the next: old without it, 0 for none.
fn earliest(test: bool, n: usize, old: usize) -> usize
    ensures { result ≡ earliest test n old }
{
    if old == 0 { later(test, n, 0) } else { old }
}

// "The config is types 1 to 6."
fn is_config(code: u32) -> bool
    ensures { result ≡ between 1 6 code }
{
    Phase::of(code) == Some(Phase::CONFIG)
}

// The defined contests with the next item: a type 3 defines one.
fn contests_after(contests: [u32; 8], addition: &Addition) -> [u32; 8]
    ensures { (k : ℕ) → k < 8
        → get_or result k 0 ≡ contests_after k (get_or contests k 0) (item_after addition.now.board.now addition.now.count) }
{
    let item = addition.known.item;
    if item.head.code == Head::CONTEST {
        return sets::with(contests, addition.board[item.content]);
    }
    contests
}

// The rounds in force with the next item: a type 6 takes the place of its number.
fn rounds_after(rounds: [u32; 16], addition: &Addition) -> [u32; 16]
    ensures { (j : ℕ) → j < 16
        → get_or result j 0 ≡ slot_after (get_or rounds j 0) addition.now.count j (item_after addition.now.board.now addition.now.count) }
{
    let mut slots = rounds;
    let item = addition.known.item;
    if item.head.code == Head::ROUND {
        slots[addition.board[item.content] as usize] = (addition.count + 1) as u32;
    }
    slots
}
