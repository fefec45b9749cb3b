// The auditor for programs in C and Rust. A caller outside Rattle is checked by nothing, so an entry requires nothing: it refuses.
// include/tirfolma.h has the same for the caller.
#![tactic(auto)]

ghost use Rattle.abi.specs.Written.{Audited, Compared, Listed, Answered, Held, Exported, Planned};

use answers::Size;
use audit::Submission;
use entries::{answering, comparing, listing, watching, writing};
use plan::Plan;

// Audits a board with its verdict words and the roll of its voters, writes the report into the first 22 words of the answer and the rows
// into the tables, and returns true, of a refusal too. Where the answer is shorter, returns false and writes nothing.
#[unsafe(no_mangle)]
pub extern "C" fn tirfolma_audit(
    board: &[u32],
    verdicts: &[u32],
    roll: &[u32],
    index: &mut [u32],
    ballots: &mut [u32],
    answer: &mut [u32],
) -> bool
    ensures { Audited board verdicts roll index ballots answer result }
{
    if answer.len() < Size::AUDIT {
        return false;
    }
    let submission = Submission {
        board,
        verdicts,
        roll,
    };
    let report = audit::audit(&submission, index, ballots);
    answers::put_report(report, answer);
    true
}

// Audits a kept board and a later one, each with its own roll and tables, compares them at a main number of the later one, writes what is
// found into the first 6 words of the answer, and returns true. Where the answer is shorter, returns false and writes nothing.
#[unsafe(no_mangle)]
pub extern "C" fn tirfolma_compare(
    kept: &[u32],
    kept_verdicts: &[u32],
    kept_roll: &[u32],
    later: &[u32],
    later_verdicts: &[u32],
    later_roll: &[u32],
    number: usize,
    kept_index: &mut [u32],
    kept_ballots: &mut [u32],
    later_index: &mut [u32],
    later_ballots: &mut [u32],
    answer: &mut [u32],
) -> bool
    ensures { Compared kept kept_verdicts kept_roll kept_index kept_ballots
        later later_verdicts later_roll later_index later_ballots number answer result }
{
    if answer.len() < Size::COMPARE {
        return false;
    }
    let kept = Submission {
        board: kept,
        verdicts: kept_verdicts,
        roll: kept_roll,
    };
    let later = Submission {
        board: later,
        verdicts: later_verdicts,
        roll: later_roll,
    };
    let comparison = comparing::compare(
        &kept,
        &later,
        number,
        kept_index,
        kept_ballots,
        later_index,
        later_ballots,
    );
    answers::put_comparison(comparison, answer);
    true
}

// Audits a board, lists an item's number and those of its ancestors, writes the answer into its first 2 words, and returns true. Where the
// answer is shorter, returns false and writes nothing.
#[unsafe(no_mangle)]
pub extern "C" fn tirfolma_ancestry(
    board: &[u32],
    verdicts: &[u32],
    roll: &[u32],
    number: usize,
    index: &mut [u32],
    ballots: &mut [u32],
    list: &mut [u32],
    answer: &mut [u32],
) -> bool
    ensures { Listed board verdicts roll number index ballots list answer result }
{
    if answer.len() < Size::ANCESTRY {
        return false;
    }
    let submission = Submission {
        board,
        verdicts,
        roll,
    };
    let listing = listing::ancestry(&submission, number, index, ballots, list);
    answers::put_listing(listing, answer);
    true
}

// Audits a board, answers receipts from it, writes the report into the first 22 words of the answer and the main number of each receipt's
// cast into the answers, and returns true, of a refusal too. Where the answer is shorter, returns false and writes nothing.
#[unsafe(no_mangle)]
pub extern "C" fn tirfolma_receipts(
    board: &[u32],
    verdicts: &[u32],
    roll: &[u32],
    receipts: &[u32],
    index: &mut [u32],
    ballots: &mut [u32],
    answers: &mut [u32],
    answer: &mut [u32],
) -> bool
    ensures { Answered board verdicts roll receipts index ballots answers answer result }
{
    if answer.len() < Size::AUDIT {
        return false;
    }
    let submission = Submission {
        board,
        verdicts,
        roll,
    };
    let report = answering::receipts(&submission, receipts, index, ballots, answers);
    answers::put_report(report, answer);
    true
}

// Audits a board, holds a watcher's notes against it, writes the report and what the notes say into the first 24 words of the answer, and
// returns true, of a refusal too. Where the answer is shorter, returns false and writes nothing.
#[unsafe(no_mangle)]
pub extern "C" fn tirfolma_notes(
    board: &[u32],
    verdicts: &[u32],
    roll: &[u32],
    notes: &[u32],
    index: &mut [u32],
    ballots: &mut [u32],
    answer: &mut [u32],
) -> bool
    ensures { Held board verdicts roll notes index ballots answer result }
{
    if answer.len() < Size::NOTES {
        return false;
    }
    let submission = Submission {
        board,
        verdicts,
        roll,
    };
    match watching::notes(&submission, notes, index, ballots) {
        Ok(held) => answers::put_held(Ok(held.accepted), Some(held.agreement), answer),
        Err(refused) => answers::put_held(Err(refused), None, answer),
    }
    true
}

// Audits a board, writes its main items as lines of JSON into the text buffer, writes the report and the number of bytes into the first 23
// words of the answer, and returns true, of a refusal too. Where the answer is shorter, returns false and writes nothing.
#[unsafe(no_mangle)]
pub extern "C" fn tirfolma_export(
    board: &[u32],
    verdicts: &[u32],
    roll: &[u32],
    index: &mut [u32],
    ballots: &mut [u32],
    text: &mut [u8],
    answer: &mut [u32],
) -> bool
    ensures { Exported board verdicts roll index ballots text answer result }
{
    if answer.len() < Size::EXPORT {
        return false;
    }
    let submission = Submission {
        board,
        verdicts,
        roll,
    };
    match writing::export(&submission, index, ballots, text) {
        Ok(exported) => answers::put_exported(Ok(exported.accepted), exported.bytes, answer),
        Err(refused) => answers::put_exported(Err(refused), 0, answer),
    }
    true
}

// Plans a board: writes the number of its items, the words of their index rows and the blocks of their addresses, or the refusal, into the
// first 4 words of the answer, and returns true. Where the answer is shorter, returns false and writes nothing.
#[unsafe(no_mangle)]
pub extern "C" fn tirfolma_plan(board: &[u32], answer: &mut [u32]) -> bool
    ensures { Planned board answer result }
{
    if answer.len() < Size::PLAN {
        return false;
    }
    let plan = Plan::of(board);
    answers::put_plan(plan, answer);
    true
}
