// Holding a watcher's notes against a board: the board is audited, and then its main items are asked.
ghost use Rattle.std.specs.Prelude.{◌≡◌};
ghost use Rattle.model.specs.Report.{report_of, index_after, ballots_after};
ghost use Rattle.format.specs.Format.{format_of};
ghost use Rattle.audit.specs.Outcome.{outcome_of};
ghost use Rattle.notes.specs.Holding.{Whole};
ghost use Rattle.entries.specs.Watching.{notes_outcome, agreement_with, held_report, held_agreement};

use audit::Submission;
use index::passed::Passed;
use notes::Disagrees;
use refusal::{Refusal, Refused};
use report::Accepted;

// What the audit accepted, and the first note that disagrees with it, if one does.
#[derive(Clone, Copy)]
pub struct Held {
    pub accepted: Accepted,
    pub agreement: Result<(), Disagrees>,
}

// Audits a board and holds whole notes against it.
fn hold_audited(
    submission: &Submission,
    notes: &[u32],
    index: &mut [u32],
    ballots: &mut [u32],
) -> Result<Held, Refused>
    requires { Whole submission.now.board.now notes.now }
    ensures report { held_report result
        ≡ report_of (format_of submission.now.board.now) (outcome_of submission.now index ballots) }
    ensures agreement { held_agreement result ≡ agreement_with submission.now.board.now notes (outcome_of submission.now index ballots) }
    ensures index { index.new ≡ index_after (outcome_of submission.now index ballots) index.old }
    ensures ballots { ballots.new ≡ ballots_after (outcome_of submission.now index ballots) ballots.old }
{
    let accepted = audit::audit(submission, index, ballots)?;
    let passed = Passed {
        board: submission.board,
        index,
        count: accepted.items as usize,
    };
    let agreement = notes::hold_accepted(&passed, notes);
    Ok(Held {
        accepted,
        agreement,
    })
}

// Audits a board, then holds a watcher's notes against it: the first that disagrees, whose address is no main item's, or whose main item is
// earlier than that of the note before, or whose time is less than that item's; else that all agree. Notes that are not whole or too many
// are 23, before the audit and with no buffer changed. The two tables are as the audit leaves them, also where a note disagrees.
pub fn notes(
    submission: &Submission,
    notes: &[u32],
    index: &mut [u32],
    ballots: &mut [u32],
) -> Result<Held, Refused>
    ensures report { held_report result
        ≡ report_of (format_of submission.now.board.now) (notes_outcome submission.now notes index ballots) }
    ensures agreement { held_agreement result
        ≡ agreement_with submission.now.board.now notes (notes_outcome submission.now notes index ballots) }
    ensures index { index.new
        ≡ index_after (notes_outcome submission.now notes index ballots) index.old }
    ensures ballots { ballots.new
        ≡ ballots_after (notes_outcome submission.now notes index ballots) ballots.old }
{
    // 23 bad notes
    if notes::is_bad(submission.board, notes) {
        return Err(Refused::after(Refusal::BadNotes, 0));
    }
    hold_audited(submission, notes, index, ballots)
}
