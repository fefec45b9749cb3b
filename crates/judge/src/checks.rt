// Checks 7 to 16 and 21 of an item whose head is listed and that lies within the board. Each comment gives the paper's number and word.
ghost use Rattle.std.specs.Prelude.{◌≡◌, List, ℕ};
ghost use Rattle.model.specs.Roll.{Eligibility, on_roll};
ghost use Rattle.model.specs.Audit.{first_unmet};
ghost use Rattle.refusal.specs.Number.{found_of};
ghost use Rattle.lookup.specs.Buckets.{session_chain};
ghost use Rattle.tally.specs.Tallied.{Tallied};
ghost use Rattle.keys.specs.Verdicts.{verdict_at};
ghost use Rattle.judge.specs.Checks.{checks_at, link_checks, rule_checks, verdict_checks};

use refusal::Refusal;
use roll::Roll;
use state::candidate::ListedItem;

// Its links to the items before it.
fn links_finding(listed: &ListedItem) -> Result<(), Refusal>
    ensures { (eligible : Eligibility) (v : List ℕ) → found_of result ≡ first_unmet (link_checks (checks_at listed.now eligible v)) }
{
    let next = listed.candidate;
    // 7 false address
    if !links::address_ok(next.board, next.known.item) {
        return Err(Refusal::WrongAddress);
    }
    // 8 broken history
    if !links::previous_ok(next) {
        return Err(Refusal::WrongPrevious);
    }
    // 9 orphan
    if !links::parent_ok(listed) {
        return Err(Refusal::WrongParent);
    }
    // 10 backward clock
    if !links::time_ok(next) {
        return Err(Refusal::EarlierTime);
    }
    Ok(())
}

// The rules of its type.
fn rules_finding(
    listed: &ListedItem,
    roll: &Roll,
    ballots: &[u32],
    sessions: &[u32],
) -> Result<(), Refusal>
    requires tallied { Tallied listed.now.candidate.now.board.now ballots.now listed.now.candidate.now.state.items }
    requires sessions { sessions.now ≡ session_chain listed.now.candidate.now.board.now listed.now.candidate.now.state.items }
    ensures { (v : List ℕ) → found_of result ≡ first_unmet (rule_checks (checks_at listed.now (on_roll roll.now.words.now) v)) }
{
    let next = listed.candidate;
    // 11 out of phase
    if !phases::phase_ok(next, sessions) {
        return Err(Refusal::OutOfPhase);
    }
    // 12 second
    if !phases::only_ok(next) {
        return Err(Refusal::Duplicate);
    }
    // 13 bad content
    if !contents::content_ok(next, ballots) {
        return Err(Refusal::BadContent);
    }
    // 21 not on the roll
    if !roll::on_roll_ok(next, roll) {
        return Err(Refusal::NotOnRoll);
    }
    Ok(())
}

// The verdict on its signature.
fn verdict_finding(listed: &ListedItem, verdicts: &[u32]) -> Result<(), Refusal>
    ensures { (eligible : Eligibility) → found_of result ≡ first_unmet
        (verdict_checks (checks_at listed.now eligible (verdict_at verdicts.now listed.now.candidate.now.state.items))) }
{
    let items = listed.candidate.state.items;
    // 14 no verdict
    if !keys::verdict_ok(verdicts, items) {
        return Err(Refusal::NoVerdict);
    }
    // 15 wrong key
    if !keys::key_ok(listed, verdicts) {
        return Err(Refusal::WrongKey);
    }
    // 16 bad signature
    if !keys::signature_ok(verdicts, items) {
        return Err(Refusal::BadSignature);
    }
    Ok(())
}

// "7 to 16 in order", 21 "right after 13": the first that applies.
pub fn item_finding(
    listed: &ListedItem,
    verdicts: &[u32],
    roll: &Roll,
    ballots: &[u32],
    sessions: &[u32],
) -> Result<(), Refusal>
    requires tallied { Tallied listed.now.candidate.now.board.now ballots.now listed.now.candidate.now.state.items }
    requires sessions { sessions.now ≡ session_chain listed.now.candidate.now.board.now listed.now.candidate.now.state.items }
    ensures { found_of result ≡ first_unmet
        (checks_at listed.now (on_roll roll.now.words.now) (verdict_at verdicts.now listed.now.candidate.now.state.items)) }
{
    links_finding(listed)?;
    rules_finding(listed, roll, ballots, sessions)?;
    verdict_finding(listed, verdicts)
}
