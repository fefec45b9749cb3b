// Answering receipts from a board: the board is audited, and then its casts are asked.
ghost use Rattle.std.specs.Prelude.{◌≡◌};
ghost use Rattle.model.specs.Report.{report_of, index_after, ballots_after};
ghost use Rattle.format.specs.Format.{format_of};
ghost use Rattle.report.specs.Reported.{reported};
ghost use Rattle.audit.specs.Outcome.{outcome_of};
ghost use Rattle.receipts.specs.Answering.{Answerable};
ghost use Rattle.entries.specs.Answering.{receipts_outcome, answers_left};

use audit::Submission;
use index::passed::Passed;
use refusal::Refusal;
use report::{Report, refused};

// Audits a board and answers receipts that can be answered.
fn answer_audited(
    submission: &Submission,
    receipts: &[u32],
    index: &mut [u32],
    ballots: &mut [u32],
    answers: &mut [u32],
) -> Report
    requires { Answerable submission.now.board.now receipts.now answers.old }
    ensures answer { reported result ≡ report_of (format_of submission.now.board.now) (outcome_of submission.now index ballots) }
    ensures index { index.new ≡ index_after (outcome_of submission.now index ballots) index.old }
    ensures ballots { ballots.new ≡ ballots_after (outcome_of submission.now index ballots) ballots.old }
    ensures answers { answers.new
        ≡ answers_left submission.now.board.now receipts (outcome_of submission.now index ballots) answers.old }
{
    let accepted = audit::audit(submission, index, ballots)?;
    let passed = Passed {
        board: submission.board,
        index,
        count: accepted.items as usize,
    };
    receipts::answer_accepted(&passed, receipts, answers);
    Ok(accepted)
}

// Audits a board, then answers each receipt: the main number of the first cast with its address and signature, or 4,294,967,295; zeros
// after them. Receipts that are not whole or too many are 22, and an answers buffer with fewer words than receipts is 2, both before the
// audit and with no buffer changed. Any refusal leaves the answers buffer unchanged, and the two tables are as the audit leaves them.
pub fn receipts(
    submission: &Submission,
    receipts: &[u32],
    index: &mut [u32],
    ballots: &mut [u32],
    answers: &mut [u32],
) -> Report
    ensures answer { reported result
        ≡ report_of (format_of submission.now.board.now) (receipts_outcome submission.now receipts index ballots answers) }
    ensures index { index.new
        ≡ index_after (receipts_outcome submission.now receipts index ballots answers) index.old }
    ensures ballots { ballots.new
        ≡ ballots_after (receipts_outcome submission.now receipts index ballots answers) ballots.old }
    ensures answers { answers.new
        ≡ answers_left submission.now.board.now receipts (receipts_outcome submission.now receipts index ballots answers) answers.old }
{
    // 22 bad tray
    if receipts::is_bad(submission.board, receipts) {
        return refused(Refusal::BadReceipts, 0);
    }
    // 2 short sheet
    if answers.len() < receipts::count(submission.board, receipts) {
        return refused(Refusal::ShortTable, 0);
    }
    answer_audited(submission, receipts, index, ballots, answers)
}
