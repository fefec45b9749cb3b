// The item after those that passed, which the rules are asked about.
ghost use Rattle.state.specs.Stands.{AtItem, IsRow};

use crate::State;
use crate::progress::Progress;
use format::table::Row;
use index::Known;
use index::passed::Passed;

// The item after those that passed: the board, the index table with their rows, the state behind them, and what is known of the item, whose
// head is listed and which lies within the board.
#[derive(Clone, Copy)]
pub struct Candidate<'a> {
    pub board: &'a [u32],
    pub index: &'a [u32],
    pub state: State,
    pub known: Known,
    pub ghost at_item: { ∥ AtItem board.now index.now state known ∥₁ },
}

impl<'a> Candidate<'a> {
    ghost use Rattle.std.specs.Prelude.{◌≡◌, ◌≤◌};
    ghost use Rattle.model.specs.History.{entry, closer};
    ghost use Rattle.index.specs.Known.{IsKnown};
    ghost use Rattle.state.specs.Reached.{history_before};

    // The items that passed.
    pub fn passed(&self) -> Passed<'a>
        ensures board { result.board.now ≡ self.now.board.now }
        ensures count { result.count ≡ self.now.state.items }
    {
        Passed {
            board: self.board,
            index: self.index,
            count: self.state.items,
        }
    }

    // Item number k.
    pub fn entry(&self, k: usize) -> Known
        requires { (1 ≤ k) × (k ≤ self.now.state.items) }
        ensures { IsKnown self.now.board.now (entry (history_before self.now) k) result }
    {
        self.passed().entry(k)
    }

    // The number of the parent of item number k.
    pub fn parent(&self, k: usize) -> usize
        requires { (1 ≤ k) × (k ≤ self.now.state.items) }
        ensures { result ≡ (entry (history_before self.now) k).parent }
    {
        self.passed().parent(k)
    }

    // The number of the cast or spoil under item number k: 0 for other items and open ballots.
    pub fn closer(&self, k: usize) -> usize
        requires { (1 ≤ k) × (k ≤ self.now.state.items) }
        ensures { result ≡ closer (history_before self.now) k }
    {
        self.passed().closer(k)
    }

    // How far the audit has come before it.
    pub fn progress(&self) -> Progress<'a>
        ensures board { result.board.now ≡ self.now.board.now }
        ensures state { result.state ≡ self.now.state }
    {
        Progress {
            board: self.board,
            index: self.index,
            state: self.state,
        }
    }
}

// Such an item with its row of the table of item types.
#[derive(Clone, Copy)]
pub struct ListedItem<'a> {
    pub candidate: &'a Candidate<'a>,
    pub row: Row,
    pub ghost listed: { ∥ IsRow candidate.now.board.now candidate.now.state row ∥₁ },
}
