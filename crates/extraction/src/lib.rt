// Check 13 for extraction: data and confirmation. Paper: "Content", "Counted ballots" (fingerprint).
#![tactic(auto)]

ghost use Rattle.std.specs.Prelude.{◌≡◌, [], ◌∷◌, ltb};
ghost use Rattle.model.specs.Words.{all_in};
ghost use Rattle.model.specs.Content.{fingerprint_ok, trustees_ok};
ghost use Rattle.state.specs.Reached.{history_before, item_at, rule_at};
ghost use Rattle.tally.specs.Tallied.{Tallied};
ghost use Rattle.extraction.specs.Rules.{extraction_ok};

use fields::range::Range;
use fields::{Content, content_of, earlier_word, word};
use format::head::Head;
use format::size::Size;
use state::candidate::Candidate;

// The extraction's part of check 13.
pub fn extraction_ok(next: &Candidate, ballots: &[u32]) -> bool
    requires { Tallied next.now.board.now ballots.now next.now.state.items }
    ensures { result ≡ rule_at extraction_ok next.now }
{
    fingerprint_ok(next, ballots) && trustees_ok(next)
}

// 33, extraction data: the fingerprint of the counted ballots.
fn fingerprint_ok(next: &Candidate, ballots: &[u32]) -> bool
    requires { Tallied next.now.board.now ballots.now next.now.state.items }
    ensures { result ≡ rule_at fingerprint_ok next.now }
{
    if next.known.item.head.code != Head::EXTRACTION {
        return true;
    }
    let fingerprint = tally::fingerprint(&next.progress(), ballots);
    words::same_words(content_of(next), &fingerprint)
}

// 34, confirmation: words for each trustee, numbers below m, and at least t of them.
fn trustees_ok(next: &Candidate) -> bool
    ensures { result ≡ trustees_ok (history_before next.now) (item_at next.now) }
{
    if next.known.item.head.code != Head::CONFIRMATION {
        return true;
    }
    let content = content_of(next);
    let trustees = word(content, Content::SET);
    let ones = trustees.count_ones();
    if content.len() != 1 + ones as usize * Size::SHARE {
        return false;
    }
    let passed = next.passed();
    let threshold = next.state.threshold;
    let most = earlier_word(&passed, threshold, Content::TRUSTEES);
    let least = earlier_word(&passed, threshold, Content::THRESHOLD);
    is_below(trustees, most) && least <= ones
}

// Whether every number of a set is below m.
fn is_below(set: u32, m: u32) -> bool
    ensures { result ≡ all_in (set ∷ []) (λ j. ltb j m) }
{
    m >= Range::TRUSTEES || set >> m == 0
}
