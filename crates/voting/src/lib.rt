// Check 13 for voting: session, commitments, ballot. Paper: "Content", "Item types" (sets).
#![tactic(auto)]

ghost use Rattle.std.specs.Prelude.{◌≡◌, ◌*◌, ◌≤◌};
ghost use Rattle.model.specs.Words.{set_bits, member, all_in};
ghost use Rattle.model.specs.Codes.{ballot_type};
ghost use Rattle.model.specs.Content.{cryptograms_ok, session_ok, commitment_ok, ballot_contests, may_vote, ballot_ok};
ghost use Rattle.format.specs.Format.{format_of};
ghost use Rattle.state.specs.Reached.{history_before, item_at, rule_at};
ghost use Rattle.voting.specs.Rules.{voting_ok, own_contests};

use config::contests_ok;
use fields::range::Range;
use fields::{Content, content_of, word};
use format::format::Format;
use format::head;
use format::head::Head;
use state::candidate::Candidate;

// The voters' part of check 13.
pub fn voting_ok(next: &Candidate) -> bool
    ensures { result ≡ rule_at voting_ok next.now }
{
    session_ok(next) && commitment_ok(next) && ballot_ok(next)
}

// 16, session: the weight is at least 1, and the contests are defined.
fn session_ok(next: &Candidate) -> bool
    ensures { result ≡ session_ok (history_before next.now) (item_at next.now) }
{
    if next.known.item.head.code != Head::SESSION {
        return true;
    }
    let content = content_of(next);
    1 <= word(content, Content::WEIGHT)
        && contests_ok(&next.state, &content[Content::SESSION_CONTESTS..])
}

// 17 and 18, commitments: the spare bits of the last word are zero.
fn commitment_ok(next: &Candidate) -> bool
    ensures { result ≡ commitment_ok (format_of next.now.board.now) (item_at next.now) }
{
    if !head::is_between(
        Head::VOTER_COMMITMENT,
        Head::SERVER_COMMITMENT,
        next.known.item.head.code,
    ) {
        return true;
    }
    let format = Format::of(next.board);
    word(content_of(next), format.commitment - 1) % format.unit == 0
}

// 19, ballot: as many cryptograms as contests, each contest one that the voter may vote in, and the spare bits of the cryptograms zero.
fn ballot_ok(next: &Candidate) -> bool
    ensures { result ≡ rule_at ballot_ok next.now }
{
    if next.known.item.head.code != Head::BALLOT {
        return true;
    }
    let content = content_of(next);
    let format = Format::of(next.board);
    let sets = format.sets;
    let contests = words::part(content, 0, sets);
    let cryptograms = sets::count(contests) as usize;
    content.len() == sets + cryptograms * format.cryptogram
        && may_vote(next, contests)
        && cryptograms_ok(content, sets, format.cryptogram, cryptograms)
}

// Whether the voter may vote in each contest of a ballot: the session has it, and an open round enables it.
fn may_vote(next: &Candidate, contests: &[u32]) -> bool
    requires { (next.now.known.item.head.code ≡ ballot_type)
        × (contests.now ≡ ballot_contests (format_of next.now.board.now) (item_at next.now)) }
    ensures { result ≡ all_in contests.now (may_vote (history_before next.now) (item_at next.now)) }
{
    if !is_own(next, contests) {
        return false;
    }
    let time = words::pair_at(next.board, next.known.item.time);
    let enabled = rounds::enabled(&next.progress(), time);
    sets::is_within(contests, &enabled)
}

// Whether the session has each contest of a ballot. Without a session there is none.
fn is_own(next: &Candidate, contests: &[u32]) -> bool
    requires { (next.now.known.item.head.code ≡ ballot_type)
        × (contests.now ≡ ballot_contests (format_of next.now.board.now) (item_at next.now)) }
    ensures { result ≡ all_in contests.now (member (own_contests next.now.board.now next.now.state)) }
{
    let session = next.known.session;
    if session == 0 {
        return sets::is_empty(contests);
    }
    let item = next.entry(session).item;
    let own = words::part(
        next.board,
        item.content + Content::SESSION_CONTESTS,
        contests.len(),
    );
    sets::is_within(contests, own)
}

// Whether the low 16 bits of the last word of each of n cryptograms of a size behind a set are zero.
fn cryptograms_ok(content: &[u32], sets: usize, size: usize, n: usize) -> bool
    requires { (sets ≤ 8) × (1 ≤ size) × (size ≤ 34) × (n ≤ set_bits * sets) }
    ensures { result ≡ cryptograms_ok sets size n content.now }
{
    for k in 0..n {
        let last = word(content, sets + (k + 1) * size - 1);
        if last % Range::CRYPTOGRAM != 0 {
            return false;
        }
    }
    true
}
