// Checks 14 to 16: the verdict on an item's signature, and the key under which it was given. Paper: "Words on the shelf", "Item types".
#![tactic(auto)]

ghost use Rattle.std.specs.Prelude.{◌≡◌, ◌+◌, ◌≤◌, length, T};
ghost use Rattle.model.specs.Lists.{part};
ghost use Rattle.model.specs.Words.{same_words};
ghost use Rattle.model.specs.Format.{key_size, verdict_size};
ghost use Rattle.model.specs.History.{item_no};
ghost use Rattle.model.specs.Audit.{item_limit};
ghost use Rattle.model.specs.Keys.{key_at, verdict_ok, key_ok, signature_ok};
ghost use Rattle.state.specs.Reached.{history_before};
ghost use Rattle.keys.specs.Verdicts.{verdict_at, key_in, writer_key, opening_of};

use format::head::Head;
use format::item::Item;
use format::size::Size;
use format::table::Writer;
use state::candidate::{Candidate, ListedItem};

// A verdict: a word that says whether the signature is good, and the fingerprint of the key under which it was checked.
pub struct Verdict {}

impl Verdict {
    pub const SIZE: usize = 1 + Size::KEY;

    // What stands below the kind: 1 good, 0 bad.
    pub const GOOD: u32 = 1;
}

// Where a key fingerprint (the paper's key mark) stands in the content that holds it.
pub struct Key {}

impl Key {
    // Item 1: behind the election number.
    pub const ADMINISTRATOR: usize = 1;

    pub const BALLOT_BOX: usize = 1 + Size::KEY;

    // An authorizer item: behind the mode.
    pub const AUTHORIZER: usize = 1;

    // A session: behind voter and weight.
    pub const VOTER: usize = 2;

    // A verifier item.
    pub const VERIFIER: usize = 0;
}

// 14, no verdict: the nine words of the item after the first are all there, and the first is of kind 3 with nothing but the verdict.
pub fn verdict_ok(verdicts: &[u32], items: usize) -> bool
    requires { items ≤ item_limit }
    ensures { result ≡ verdict_ok (verdict_at verdicts.now items) }
{
    let at = Verdict::SIZE * items;
    match verdicts.get(at..at + Verdict::SIZE) {
        Some(verdict) => {
            let word = verdict[0];
            word >> 28 == Head::VERDICT && word % 0x1000_0000 <= Verdict::GOOD
        }
        None => false,
    }
}

// 15, wrong key: the verdict was given under the key of the item's writer.
pub fn key_ok(listed: &ListedItem, verdicts: &[u32]) -> bool
    requires { T (verdict_ok (verdict_at verdicts.now listed.now.candidate.now.state.items)) }
    ensures { let next = listed.now.candidate.now in result
        ≡ key_ok (verdict_at verdicts.now next.state.items) (writer_key next.board.now next.state.items listed.now.row.writer) }
{
    let next = listed.candidate;
    let key = words::part(verdicts, Verdict::SIZE * next.state.items + 1, Size::KEY);
    match listed.row.writer {
        Writer::Administrator => is_opening_key(next, key, Key::ADMINISTRATOR),
        Writer::BallotBox => is_opening_key(next, key, Key::BALLOT_BOX),
        Writer::Authorizer => is_earlier_key(next, key, next.state.authorizer, Key::AUTHORIZER),
        Writer::Voter => is_earlier_key(next, key, next.known.session, Key::VOTER),
        Writer::Verifier => is_key(next.board, next.known.item, key, Key::VERIFIER),
    }
}

// 16, bad signature: the verdict is 1.
pub fn signature_ok(verdicts: &[u32], items: usize) -> bool
    requires { (items ≤ item_limit) × T (verdict_ok (verdict_at verdicts.now items)) }
    ensures { result ≡ signature_ok (verdict_at verdicts.now items) }
{
    verdicts[Verdict::SIZE * items] % 2 == Verdict::GOOD
}

// Whether a key fingerprint is the one from content word k of item 1 on. The first item is item 1 itself.
fn is_opening_key(next: &Candidate, key: &[u32], k: usize) -> bool
    requires { (length key.now ≡ key_size) × (k ≤ verdict_size) }
    ensures { result ≡ same_words key.now (key_at k (opening_of next.now.board.now next.now.state.items)) }
{
    if next.state.items == 0 {
        is_key(next.board, next.known.item, key, k)
    } else {
        is_earlier_key(next, key, 1, k)
    }
}

// Whether it is the one from content word k of an earlier item on. There is none where the items so far have no such number.
fn is_earlier_key(next: &Candidate, key: &[u32], number: usize, k: usize) -> bool
    requires { (length key.now ≡ key_size) × (k ≤ verdict_size) }
    ensures { result ≡ same_words key.now (key_at k (item_no (history_before next.now) number)) }
{
    if number == 0 || next.state.items < number {
        return false;
    }
    is_key(next.board, next.entry(number).item, key, k)
}

// Whether it is the one from content word k of an item on. There is none where the content is too short.
fn is_key(board: &[u32], item: Item, key: &[u32], k: usize) -> bool
    requires { (item.content + item.head.count ≤ length board.now) × (length key.now ≡ key_size) × (k ≤ verdict_size) }
    ensures { result ≡ same_words key.now (key_in (part item.content item.head.count board.now) k) }
{
    let content = words::part(board, item.content, item.head.count);
    match content.get(k..k + Size::KEY) {
        Some(found) => words::same_words(key, found),
        None => false,
    }
}
