// Exporting the main list of a board: the board is audited, and then its main items are written as text.
ghost use Rattle.std.specs.Prelude.{◌≡◌};
ghost use Rattle.model.specs.Report.{report_of, index_after, ballots_after};
ghost use Rattle.exporting.specs.Export.{export_length, text_after};
ghost use Rattle.format.specs.Format.{format_of};
ghost use Rattle.audit.specs.Outcome.{outcome_of};
ghost use Rattle.entries.specs.Writing.{writing_outcome, exported_report, exported_bytes};

use audit::Submission;
use index::passed::Passed;
use refusal::{Refusal, Refused};
use report::Accepted;

// What the audit accepted, and how many bytes were written.
#[derive(Clone, Copy)]
pub struct Exported {
    pub accepted: Accepted,
    pub bytes: u32,
}

// Audits a board, then writes its main items into the text buffer, a line of JSON for each. A text buffer that is shorter than the text is
// 2, with 0 items, and comes after the audit. Any refusal leaves the text buffer as it was, and so are the bytes behind the text. The two
// tables are as the audit leaves them, also where the text buffer is short.
pub fn export(
    submission: &Submission,
    index: &mut [u32],
    ballots: &mut [u32],
    text: &mut [u8],
) -> Result<Exported, Refused>
    ensures report { exported_report result
        ≡ report_of (format_of submission.now.board.now) (writing_outcome submission.now index ballots text) }
    ensures bytes { exported_bytes result ≡ export_length (writing_outcome submission.now index ballots text) }
    ensures index { index.new ≡ index_after (outcome_of submission.now index ballots) index.old }
    ensures ballots { ballots.new ≡ ballots_after (outcome_of submission.now index ballots) ballots.old }
    ensures text { text.new ≡ text_after (writing_outcome submission.now index ballots text) text.old }
{
    let accepted = audit::audit(submission, index, ballots)?;
    let passed = Passed {
        board: submission.board,
        index,
        count: accepted.items as usize,
    };
    match export::export_accepted(&passed, text) {
        Some(bytes) => Ok(Exported { accepted, bytes }),
        // 2 short sheet
        None => Err(Refused::after(Refusal::ShortTable, 0)),
    }
}
