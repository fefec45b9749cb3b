// The rounds in force: whether one is open at a time, and the contests that the open ones enable.
// A later round with the same number replaces the earlier; the state has the round in force under each number.
#![tactic(auto)]

ghost use Rattle.std.specs.Prelude.{◌≡◌, ℕ, ◌<◌, get_or};
ghost use Rattle.std.specs.Int.Bits.{bit_or};
ghost use Rattle.model.specs.Lists.{any};
ghost use Rattle.model.specs.Phase.{rounds, is_open};
ghost use Rattle.format.specs.Layout.{item_on};
ghost use Rattle.index.specs.Passed.{history_of};
ghost use Rattle.state.specs.Reached.{history_behind};
ghost use Rattle.state.specs.Standing.{enabled_word};
ghost use Rattle.rounds.specs.Open.{IsRound, InForce, open_under, word_under};

use format::format::Format;
use format::item::Item;
use format::size::Size;
use index::Known;
use index::passed::Passed;
use state::progress::Progress;

// Whether a round is open at a time: start ≤ time < end. They stand last in its content.
fn is_open(board: &[u32], e: Known, time: u64) -> bool
    requires { IsRound board.now e }
    ensures { result ≡ is_open time (item_on board.now e.item.place) }
{
    let at = e.item.parent - Item::TIME;
    let start = words::pair_at(board, at - Item::TIME);
    let end = words::pair_at(board, at);
    start <= time && time < end
}

// Whether a slot has a round in force, by its item number, that is open at a time. 0 is none.
fn is_open_under(passed: &Passed, slot: u32, time: u64) -> bool
    requires { InForce (history_of passed.now) slot }
    ensures { result ≡ open_under time (history_of passed.now) slot }
{
    slot != 0 && is_open(passed.board, passed.entry(slot as usize), time)
}

// A set with the contests of the round in a slot, where it is open at a time; none for 0.
fn with_contests(passed: &Passed, slot: u32, time: u64, set: [u32; 8]) -> [u32; 8]
    requires { InForce (history_of passed.now) slot }
    ensures { (i : ℕ) → i < 8 → get_or result i 0 ≡ bit_or (get_or set i 0) (word_under time (history_of passed.now) i slot) }
{
    if slot == 0 {
        return set;
    }
    let board = passed.board;
    let e = passed.entry(slot as usize);
    if !is_open(board, e, time) {
        return set;
    }
    let item = e.item;
    let contests = words::part(board, item.content + 1, item.head.count - Size::ROUND);
    sets::union(set, contests)
}

// Whether a round is open at a time.
pub fn is_any_open(progress: &Progress, time: u64) -> bool
    ensures { result ≡ any (is_open time) (rounds (history_behind progress.now)) }
{
    let passed = progress.passed();
    progress
        .state
        .rounds
        .iter()
        .any(|slot| is_open_under(&passed, *slot, time))
}

// The contests that the rounds open at a time enable, as a set.
pub fn enabled(progress: &Progress, time: u64) -> [u32; 8]
    ensures { (k : ℕ) → k < 8 → get_or result k 0 ≡ enabled_word time (history_behind progress.now) k }
{
    let passed = progress.passed();
    let mut contests = [0; Format::WIDE];
    for slot in progress.state.rounds {
        let more = with_contests(&passed, slot, time, contests);
        contests = more;
    }
    contests
}
