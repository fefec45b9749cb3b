// How far the audit of a board has come: the items that passed, and the state behind them.
ghost use Rattle.index.specs.Kept.{Kept};
ghost use Rattle.state.specs.Stands.{Stands};

use crate::State;
use index::Known;
use index::passed::Passed;

// The board, the index table with the rows of the items that passed, and the state behind them.
#[derive(Clone, Copy)]
pub struct Progress<'a> {
    pub board: &'a [u32],
    pub index: &'a [u32],
    pub state: State,
    pub ghost reached: { ∥ Kept board.now index.now state.items × Stands board.now state ∥₁ },
}

impl<'a> Progress<'a> {
    ghost use Rattle.std.specs.Prelude.{◌≡◌, ◌≤◌};
    ghost use Rattle.model.specs.History.{entry};
    ghost use Rattle.index.specs.Known.{IsKnown};
    ghost use Rattle.state.specs.Reached.{history_behind};

    // The items that passed.
    pub fn passed(&self) -> Passed<'a>
        ensures board { result.board.now ≡ self.now.board.now }
        ensures count { result.count ≡ self.now.state.items }
    {
        Passed {
            board: self.board,
            index: self.index,
            count: self.state.items,
        }
    }

    // Item number k.
    pub fn entry(&self, k: usize) -> Known
        requires { (1 ≤ k) × (k ≤ self.now.state.items) }
        ensures { IsKnown self.now.board.now (entry (history_behind self.now) k) result }
    {
        self.passed().entry(k)
    }
}
