// Listing the ancestry of an item of a board: the board is audited, and then its items are asked.
ghost use Rattle.std.specs.Prelude.{◌≡◌};
ghost use Rattle.model.specs.Report.{index_after, ballots_after};
ghost use Rattle.model.specs.Ancestry.{ancestry_answer, list_after};
ghost use Rattle.audit.specs.Outcome.{outcome_of};
ghost use Rattle.ancestry.specs.Answer.{answer_of};
ghost use Rattle.entries.specs.Listing.{is_short_for, listing_outcome, Sized};

use audit::Submission;
use format::limit::Limit;
use index::passed::Passed;
use refusal::{Refusal, Refused};

// Whether a table or the list is too short.
fn is_short(index: &[u32], ballots: &[u32], list: &[u32]) -> bool
    ensures { result ≡ is_short_for index.now ballots.now list.now }
{
    index.len() < Limit::INDEX || ballots.len() < Limit::BALLOTS || list.len() < Limit::ITEMS
}

// Audits a board and lists an item's ancestry, where the board is within the word limit and all three buffers are long enough.
fn list_audited(
    submission: &Submission,
    number: usize,
    index: &mut [u32],
    ballots: &mut [u32],
    list: &mut [u32],
) -> Result<u32, Refused>
    requires { Sized submission.now.board.now index.old ballots.old list.old }
    ensures answer { answer_of result ≡ ancestry_answer (outcome_of submission.now index ballots) number }
    ensures index { index.new ≡ index_after (outcome_of submission.now index ballots) index.old }
    ensures ballots { ballots.new ≡ ballots_after (outcome_of submission.now index ballots) ballots.old }
    ensures list { list.new ≡ list_after (outcome_of submission.now index ballots) number list.old }
{
    words::clear(list);
    let accepted = audit::audit(submission, index, ballots)?;
    let passed = Passed {
        board: submission.board,
        index,
        count: accepted.items as usize,
    };
    ancestry::list_accepted(&passed, number, list)
}

// Audits a board, then lists the ancestry of an item: its item number first, genesis last, zeros after them. The word limit and 2 change no
// buffer; under any other refusal the list is all zero, and the two tables are as the audit leaves them.
pub fn ancestry(
    submission: &Submission,
    number: usize,
    index: &mut [u32],
    ballots: &mut [u32],
    list: &mut [u32],
) -> Result<u32, Refused>
    ensures answer { answer_of result ≡ ancestry_answer (listing_outcome submission.now index ballots list) number }
    ensures index { index.new
        ≡ index_after (listing_outcome submission.now index ballots list) index.old }
    ensures ballots { ballots.new
        ≡ ballots_after (listing_outcome submission.now index ballots list) ballots.old }
    ensures list { list.new
        ≡ list_after (listing_outcome submission.now index ballots list) number list.old }
{
    // 1 oversize: more words than the limit
    if Limit::WORDS < submission.board.len() {
        return Err(Refused::after(Refusal::TooLarge, 0));
    }
    // 2 short sheet
    if is_short(index, ballots, list) {
        return Err(Refused::after(Refusal::ShortTable, 0));
    }
    list_audited(submission, number, index, ballots, list)
}
