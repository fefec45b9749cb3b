// Check 13 for the config: genesis, contest, threshold, authorizer, round. Paper: "Content", "Item types" (ranges).
#![tactic(auto)]

ghost use Rattle.std.specs.Prelude.{◌≡◌, ◌≤◌, List, ℕ, length};
ghost use Rattle.model.specs.Content.{contests_ok, genesis_ok, contest_ok, threshold_ok, authorizer_ok, round_ok};
ghost use Rattle.format.specs.Format.{format_of};
ghost use Rattle.index.specs.Kept.{before};
ghost use Rattle.state.specs.Reached.{history_before, item_at, rule_at};
ghost use Rattle.state.specs.Stands.{Stands};
ghost use Rattle.config.specs.Rules.{config_ok};

use fields::range::Range;
use fields::{Content, content_of, word};
use format::format::{Format, is_known};
use format::head::Head;
use format::item::Item;
use state::State;
use state::candidate::Candidate;

// The config's part of check 13.
pub fn config_ok(next: &Candidate) -> bool
    ensures { result ≡ rule_at config_ok next.now }
{
    genesis_ok(next)
        && contest_ok(next)
        && threshold_ok(next)
        && authorizer_ok(next)
        && round_ok(next)
}

// 1, genesis: no traits but those that are known.
fn genesis_ok(next: &Candidate) -> bool
    ensures { result ≡ genesis_ok (item_at next.now) }
{
    next.known.item.head.code != Head::GENESIS || is_known(word(content_of(next), Content::TRAITS))
}

// 3, contest: the number is one that a set of the board's width can hold.
fn contest_ok(next: &Candidate) -> bool
    ensures { result ≡ contest_ok (format_of next.now.board.now) (item_at next.now) }
{
    if next.known.item.head.code != Head::CONTEST {
        return true;
    }
    let number = word(content_of(next), Content::CONTEST) as usize;
    number < Format::BITS * Format::of(next.board).sets
}

// 4, threshold: 1 ≤ t ≤ m ≤ 32.
fn threshold_ok(next: &Candidate) -> bool
    ensures { result ≡ threshold_ok (item_at next.now) }
{
    if next.known.item.head.code != Head::THRESHOLD {
        return true;
    }
    let content = content_of(next);
    let trustees = word(content, Content::TRUSTEES);
    let threshold = word(content, Content::THRESHOLD);
    1 <= threshold && threshold <= trustees && trustees <= Range::TRUSTEES
}

// 5, authorizer: the mode is identity or credential.
fn authorizer_ok(next: &Candidate) -> bool
    ensures { result ≡ authorizer_ok (item_at next.now) }
{
    if next.known.item.head.code != Head::AUTHORIZER {
        return true;
    }
    let mode = word(content_of(next), Content::MODE);
    Range::IDENTITY <= mode && mode <= Range::CREDENTIAL
}

// 6, round: the number is in 0..15, it starts before it ends, and its contests are defined.
fn round_ok(next: &Candidate) -> bool
    ensures { result ≡ round_ok (history_before next.now) (item_at next.now) }
{
    if next.known.item.head.code != Head::ROUND {
        return true;
    }
    let content = content_of(next);
    let end = content.len() - Item::TIME;
    let start = end - Item::TIME;
    let number = word(content, Content::ROUND);
    let from = words::pair_at(content, start);
    let to = words::pair_at(content, end);
    let contests = words::part(
        content,
        Content::ROUND_CONTESTS,
        start - Content::ROUND_CONTESTS,
    );
    number <= Range::ROUND && from < to && contests_ok(&next.state, contests)
}

// Whether contests are not empty and all defined by a type 3 already, on whatever board the state is that of.
pub fn contests_ok(s: &State, contests: &[u32]) -> bool
    requires { length contests.now ≤ 8 }
    ensures { (board : List ℕ) → Stands board s.now → result ≡ contests_ok (before board s.now.items) contests.now }
{
    !sets::is_empty(contests) && sets::is_within(contests, &s.contests)
}
