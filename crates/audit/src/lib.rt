// The audit of a board: a report, and the rows of the index table and of the ballot table.
#![tactic(auto)]

ghost use Rattle.std.specs.Prelude.{◌≡◌};
ghost use Rattle.model.specs.Report.{report_of, index_after, ballots_after};
ghost use Rattle.format.specs.Format.{format_of};
ghost use Rattle.report.specs.Reported.{reported};
ghost use Rattle.audit.specs.Outcome.{outcome_of};

use format::limit::Limit;
use refusal::Refusal;
use report::{Report, refused};

pub mod run;

// What an audit is of: a board, the verdict words on its items, and the roll of its voters.
#[derive(Clone, Copy)]
pub struct Submission<'a> {
    pub board: &'a [u32],
    pub verdicts: &'a [u32],
    pub roll: &'a [u32],
}

// Audits a board with its verdict words and the roll of its voters. The index table and the ballot table are lent for writing: the word
// limit and 2 change neither, every later refusal leaves both all zero, and acceptance leaves the rows and zeros. It is compiled into its
// callers: who passes a board that is refused before it is read then needs no room for its words.
#[inline(always)]
pub fn audit(submission: &Submission, index: &mut [u32], ballots: &mut [u32]) -> Report
    ensures answer { reported result ≡ report_of (format_of submission.now.board.now) (outcome_of submission.now index ballots) }
    ensures index { index.new ≡ index_after (outcome_of submission.now index ballots) index.old }
    ensures ballots { ballots.new ≡ ballots_after (outcome_of submission.now index ballots) ballots.old }
{
    // 1 oversize: more words than the limit
    if Limit::WORDS < submission.board.len() {
        return refused(Refusal::TooLarge, 0);
    }
    // 2 short sheet
    if index.len() < Limit::INDEX {
        return refused(Refusal::ShortTable, 0);
    }
    if ballots.len() < Limit::BALLOTS {
        return refused(Refusal::ShortTable, 0);
    }
    run::read(submission, index, ballots)
}
