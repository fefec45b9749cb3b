// The items in their order, up to the first refusal or the closing word.
ghost use Rattle.std.specs.Prelude.{◌≡◌};
ghost use Rattle.model.specs.Report.{report_of, index_after, ballots_after};
ghost use Rattle.format.specs.Format.{format_of};
ghost use Rattle.lookup.specs.Buckets.{parent_chain, session_chain};
ghost use Rattle.report.specs.Reported.{reported};
ghost use Rattle.audit.specs.Outcome.{items_outcome, outcome_of};
ghost use Rattle.audit.specs.Tables.{Sized, Zeros, Holds};

use crate::Submission;
use chains::Chain;
use format::board;
use format::head::Head;
use format::limit::Limit;
use refusal::Refusal;
use report::{Report, refused};
use roll::Roll;
use state::State;
use state::progress::Progress;

// Reads the items, and writes the rows of those that pass into the tables, which are zero, as are the chain tables. A refusal leaves the
// rows of the items before it.
fn run(
    board: &[u32],
    verdicts: &[u32],
    roll: &Roll,
    index: &mut [u32],
    ballots: &mut [u32],
    parents: &mut [u32],
    sessions: &mut [u32],
) -> Report
    requires sized { (Sized board.now index.old ballots.old) × (Zeros index.old) × (Zeros ballots.old) }
    requires parents_value { (parents.old ≡ parent_chain board.now 0) × (sessions.old ≡ session_chain board.now 0) }
    ensures answer { reported result ≡ report_of (format_of board.now) (items_outcome board.now verdicts.now roll.now.words.now) }
    ensures tables { Holds board.now (items_outcome board.now verdicts.now roll.now.words.now) index.new ballots.new }
{
    let mut s = State::new();
    loop {
        let place = s.place;
        // 4 torn: no closing word
        if board.len() <= place {
            return refused(Refusal::Truncated, s.items);
        }
        if Head::of(board[place]).kind == Head::CLOSING {
            let progress = Progress {
                board,
                index,
                state: s,
            };
            return closing::close(&progress, verdicts, ballots);
        }
        // 1 oversize: a word after the last item that may be
        if s.items == Limit::ITEMS {
            return refused(Refusal::TooLarge, s.items);
        }
        match step::advance(board, verdicts, roll, index, ballots, parents, sessions, s) {
            Ok(next) => s = next,
            Err(refusal) => return refused(refusal, s.items),
        }
    }
}

// The audit of a board within the word limit, with tables that are long enough.
pub fn read(submission: &Submission, index: &mut [u32], ballots: &mut [u32]) -> Report
    requires { Sized submission.now.board.now index.old ballots.old }
    ensures answer { reported result ≡ report_of (format_of submission.now.board.now) (outcome_of submission.now index ballots) }
    ensures index { index.new ≡ index_after (outcome_of submission.now index ballots) index.old }
    ensures ballots { ballots.new ≡ ballots_after (outcome_of submission.now index ballots) ballots.old }
{
    words::clear(index);
    words::clear(ballots);
    // 20 bad roll
    let Some(roll) = Roll::new(submission.roll) else {
        return refused(Refusal::BadRoll, 0);
    };
    // 3 blank
    if board::is_empty(submission.board) {
        return refused(Refusal::EmptyBoard, 0);
    }
    // The chain tables, without an item.
    let mut parents = [0; Chain::WORDS];
    let mut sessions = [0; Chain::WORDS];
    match run(
        submission.board,
        submission.verdicts,
        &roll,
        index,
        ballots,
        &mut parents,
        &mut sessions,
    ) {
        Ok(accepted) => Ok(accepted),
        Err(refused) => {
            words::clear(index);
            words::clear(ballots);
            Err(refused)
        }
    }
}
