// Comparing two boards that were accepted, at a main number of the later one.
#![tactic(auto)]

ghost use Rattle.std.specs.Prelude.{◌≡◌, ◌≤◌};
ghost use Rattle.model.specs.Lists.{count};
ghost use Rattle.model.specs.History.{main};
ghost use Rattle.model.specs.Audit.{accepted};
ghost use Rattle.model.specs.Comparing.{answer_later};
ghost use Rattle.index.specs.Passed.{history_of};
ghost use Rattle.compare.specs.Answer.{answer_of};

use index::passed::Passed;
use pairs::Agreement;
use refusal::{Refusal, Refused};

// Which board a refusal names, numbered as in the words of an answer.
#[derive(Clone, Copy)]
pub enum Board {
    Kept = 0,
    Later = 1,
}

// A refusal of a board. A main number that the later board does not have is a refusal of that board.
#[derive(Clone, Copy)]
pub struct RefusedBoard {
    pub board: Board,
    pub refused: Refused,
}

// A board that was accepted: its items, which all passed, and how many of them are main items.
#[derive(Clone, Copy)]
pub struct AcceptedBoard<'a> {
    pub passed: Passed<'a>,
    pub mains: usize,
    pub ghost counted: { mains ≡ count main (history_of passed) },
    pub ghost opened: { 1 ≤ mains },
}

// The answer for two boards that were accepted.
pub fn compare_accepted(
    kept: &AcceptedBoard,
    later: &AcceptedBoard,
    number: usize,
) -> Result<Agreement, RefusedBoard>
    ensures { answer_of result
        ≡ answer_later (history_of kept.now.passed) (accepted (history_of later.now.passed)) number }
{
    // 19 no such point: main number 0, or past the last
    if number == 0 || later.mains < number {
        return Err(RefusedBoard {
            board: Board::Later,
            refused: Refused::after(Refusal::NoSuchItem, later.passed.count),
        });
    }
    Ok(pairs::compare(&kept.passed, kept.mains, &later.passed, number))
}
