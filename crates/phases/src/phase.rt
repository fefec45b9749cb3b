// Check 11, sentence by sentence: what may stand when. Paper: "Phases", request (iv).
ghost use Rattle.std.specs.Prelude.{◌≡◌, ◌≤◌};
ghost use Rattle.model.specs.History.{item_no, session_voter};
ghost use Rattle.model.specs.Phase.{extraction_ok, open_ok, standing_ok, latest_ok, intent_ok, is_spoiled, spoiled_ok};
ghost use Rattle.lookup.specs.Buckets.{session_chain};
ghost use Rattle.state.specs.Reached.{history_before, item_at};
ghost use Rattle.phases.specs.Session.{IsSession};

use format::head;
use format::head::Head;
use format::phase::Phase;
use lookup::chained::Sessions;
use state::candidate::Candidate;

// "After the first type 32 only 32 to 34 and 48 to 51 may follow."
pub fn extraction_ok(next: &Candidate) -> bool
    ensures { result ≡ extraction_ok (history_before next.now) (item_at next.now) }
{
    if next.state.intent == 0 {
        return true;
    }
    let phase = Phase::of(next.known.item.head.code);
    phase == Some(Phase::EXTRACTION) || phase == Some(Phase::TRACK)
}

// "Types 16 to 21 need a round .. open at their own time."
pub fn open_ok(next: &Candidate) -> bool
    ensures { result ≡ open_ok (history_before next.now) (item_at next.now) }
{
    if Phase::of(next.known.item.head.code) != Some(Phase::VOTING) {
        return true;
    }
    let time = words::pair_at(next.board, next.known.item.time);
    rounds::is_any_open(&next.progress(), time)
}

// "Type 16 needs a threshold and an authorizer to stand."
pub fn standing_ok(next: &Candidate) -> bool
    ensures { result ≡ standing_ok (history_before next.now) (item_at next.now) }
{
    next.known.item.head.code != Head::SESSION
        || (next.state.threshold != 0 && next.state.authorizer != 0)
}

// "Types 17 to 21 need their session to be the latest of its voter."
pub fn latest_ok(next: &Candidate, sessions: &[u32]) -> bool
    requires { sessions.now ≡ session_chain next.now.board.now next.now.state.items }
    ensures { result ≡ latest_ok (history_before next.now) (item_at next.now) }
{
    if !head::is_between(
        Head::VOTER_COMMITMENT,
        Head::SPOIL,
        next.known.item.head.code,
    ) {
        return true;
    }
    let session = next.known.session;
    let sessions = Sessions {
        passed: next.passed(),
        chain: sessions,
    };
    session == lookup::latest_session(&sessions, voter_of(next, session))
}

// "Type 32 needs a threshold."
pub fn intent_ok(next: &Candidate) -> bool
    ensures { result ≡ intent_ok (history_before next.now) (item_at next.now) }
{
    next.known.item.head.code != Head::INTENT || next.state.threshold != 0
}

// Request (iv): "A voter opening now needs an earlier spoil request in the file under the same ballot." Its parent is the verifier, whose
// parent is the track's start, whose parent is the ballot.
pub fn spoiled_ok(next: &Candidate) -> bool
    ensures { result ≡ spoiled_ok (history_before next.now) (item_at next.now) }
{
    if next.known.item.head.code != Head::VOTER_OPENING {
        return true;
    }
    if next.known.parent == 0 {
        return false;
    }
    let start = next.parent(next.known.parent);
    is_spoiled(next, next.parent(start))
}

// Whether a spoil stands under item number k: the item's row says what closed it.
fn is_spoiled(next: &Candidate, k: usize) -> bool
    requires { (1 ≤ k) × (k ≤ next.now.state.items) }
    ensures { result ≡ is_spoiled (history_before next.now) k }
{
    let closer = next.closer(k);
    closer != 0 && next.entry(closer).item.head.code == Head::SPOIL
}

// The voter of a session; 0 where there is no session.
fn voter_of(next: &Candidate, session: usize) -> u32
    requires { IsSession (history_before next.now) session }
    ensures { result ≡ session_voter (item_no (history_before next.now) session) }
{
    if session == 0 {
        0
    } else {
        next.board[next.entry(session).item.content]
    }
}
