// Comparing a kept board with a later one, at a main number of the later one: both are audited, and then compared.
ghost use Rattle.std.specs.Prelude.{◌≡◌};
ghost use Rattle.model.specs.Report.{index_after, ballots_after};
ghost use Rattle.model.specs.Comparing.{answer_later, comparing_answer, later_index_after, later_ballots_after};
ghost use Rattle.index.specs.Passed.{history_of};
ghost use Rattle.audit.specs.Outcome.{outcome_of};
ghost use Rattle.compare.specs.Answer.{answer_of};

use audit::Submission;
use compare::{AcceptedBoard, Board, RefusedBoard};
use index::passed::Passed;
use pairs::Agreement;

// Audits the later board, and answers for a kept board that was accepted.
fn compare_later(
    kept: &AcceptedBoard,
    later: &Submission,
    number: usize,
    later_index: &mut [u32],
    later_ballots: &mut [u32],
) -> Result<Agreement, RefusedBoard>
    ensures answer { answer_of result ≡ answer_later (history_of kept.now.passed)
        (outcome_of later.now later_index later_ballots) number }
    ensures index { later_index.new ≡ index_after (outcome_of later.now later_index later_ballots) later_index.old }
    ensures ballots { later_ballots.new ≡ ballots_after (outcome_of later.now later_index later_ballots) later_ballots.old }
{
    match audit::audit(later, later_index, later_ballots) {
        Ok(accepted) => {
            let board = AcceptedBoard {
                passed: Passed {
                    board: later.board,
                    index: later_index,
                    count: accepted.items as usize,
                },
                mains: accepted.mains as usize,
            };
            compare::compare_accepted(kept, &board, number)
        }
        Err(refused) => Err(RefusedBoard {
            board: Board::Later,
            refused,
        }),
    }
}

// Audits the kept board and then the later one, each with its own tables, and compares all main items of the kept board with those of the
// later one up to a main number. A refusal names its board and stops there: the later board's tables are unchanged if the kept one is
// refused, and the kept board's stay filled whatever comes after it.
pub fn compare(
    kept: &Submission,
    later: &Submission,
    number: usize,
    kept_index: &mut [u32],
    kept_ballots: &mut [u32],
    later_index: &mut [u32],
    later_ballots: &mut [u32],
) -> Result<Agreement, RefusedBoard>
    ensures answer { answer_of result ≡ comparing_answer
        (outcome_of kept.now kept_index kept_ballots) (outcome_of later.now later_index later_ballots) number }
    ensures kept_index { kept_index.new ≡ index_after (outcome_of kept.now kept_index kept_ballots) kept_index.old }
    ensures kept_ballots { kept_ballots.new ≡ ballots_after (outcome_of kept.now kept_index kept_ballots) kept_ballots.old }
    ensures later_index { later_index.new ≡ later_index_after
        (outcome_of kept.now kept_index kept_ballots) (outcome_of later.now later_index later_ballots) later_index.old }
    ensures later_ballots { later_ballots.new ≡ later_ballots_after
        (outcome_of kept.now kept_index kept_ballots) (outcome_of later.now later_index later_ballots) later_ballots.old }
{
    match audit::audit(kept, kept_index, kept_ballots) {
        Ok(accepted) => {
            let board = AcceptedBoard {
                passed: Passed {
                    board: kept.board,
                    index: kept_index,
                    count: accepted.items as usize,
                },
                mains: accepted.mains as usize,
            };
            compare_later(&board, later, number, later_index, later_ballots)
        }
        Err(refused) => Err(RefusedBoard {
            board: Board::Kept,
            refused,
        }),
    }
}
