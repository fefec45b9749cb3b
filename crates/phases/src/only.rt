// Check 12, sentence by sentence: what may stand only once. Paper: "Only one".
ghost use Rattle.std.specs.Prelude.{◌≡◌, ◌||◌};
ghost use Rattle.model.specs.Words.{between};
ghost use Rattle.model.specs.Only.{on_board_ok, under_parent_ok, under_ballot_ok};
ghost use Rattle.state.specs.Reached.{history_before, item_at};

use format::head;
use format::head::Head;
use state::candidate::Candidate;

// "Types 1 and 4: one per board." The first item that passed is genesis.
pub fn on_board_ok(next: &Candidate) -> bool
    ensures { result ≡ on_board_ok (history_before next.now) (item_at next.now) }
{
    match next.known.item.head.code {
        Head::GENESIS => next.state.items == 0,
        Head::THRESHOLD => next.state.threshold == 0,
        _ => true,
    }
}

// "Types 18, 19, 33, 34 and 48 to 51: one under a parent."
pub fn under_parent_ok(next: &Candidate) -> bool
    ensures { result ≡ under_parent_ok (history_before next.now) (item_at next.now) }
{
    let code = next.known.item.head.code;
    !is_single(code) || !lookup::has_child(&next.passed(), next.known.parent, code)
}

// "Types 20 and 21: one of either under a ballot." The ballot's row says what closed it.
pub fn under_ballot_ok(next: &Candidate) -> bool
    ensures { result ≡ under_ballot_ok (history_before next.now) (item_at next.now) }
{
    if !head::is_between(Head::CAST, Head::SPOIL, next.known.item.head.code) {
        return true;
    }
    let ballot = next.known.parent;
    ballot == 0 || next.closer(ballot) == 0
}

// Whether a parent may have one item of the type only.
fn is_single(code: u32) -> bool
    ensures { result ≡ (between 18 19 code || between 33 34 code || between 48 51 code) }
{
    head::is_between(Head::SERVER_COMMITMENT, Head::BALLOT, code)
        || head::is_between(Head::EXTRACTION, Head::CONFIRMATION, code)
        || head::is_between(Head::TRACK, Head::SERVER_OPENING, code)
}
