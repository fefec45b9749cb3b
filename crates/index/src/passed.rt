// The first items of a board, which passed, as the index table has them.
ghost use Rattle.index.specs.Kept.{Kept};

use crate::{Column, Known, number_in, word};
use format::item::Item;

// Items that passed: the board, the index table that holds their rows, and how many they are. Item numbers count from 1.
#[derive(Clone, Copy)]
pub struct Passed<'a> {
    pub board: &'a [u32],
    pub index: &'a [u32],
    pub count: usize,
    pub ghost kept: { ∥ Kept board.now index.now count ∥₁ },
}

impl<'a> Passed<'a> {
    ghost use Rattle.std.specs.Prelude.{◌≡◌, ◌-◌, ◌≤◌};
    ghost use Rattle.model.specs.History.{entry as entry_of, main_number, closer as closer_of};
    ghost use Rattle.index.specs.Known.{IsKnown};
    ghost use Rattle.index.specs.Passed.{history_of};

    // Item number k.
    pub fn entry(&self, k: usize) -> Known
        requires { (1 ≤ k) × (k ≤ self.now.count) }
        ensures { IsKnown self.now.board.now (entry_of (history_of self.now) k) result }
    {
        let item = Item::at(self.board, word(self.index, k, Column::PLACE) as usize);
        Known {
            item,
            parent: word(self.index, k, Column::PARENT) as usize,
            session: number_in(word(self.index, k, Column::SESSION)),
        }
    }

    // The number of the parent of item number k.
    pub fn parent(&self, k: usize) -> usize
        requires { (1 ≤ k) × (k ≤ self.now.count) }
        ensures { result ≡ (entry_of (history_of self.now) k).parent }
    {
        word(self.index, k, Column::PARENT) as usize
    }

    // How many main items stand before item number k.
    pub fn mains_before(&self, k: usize) -> usize
        requires { (1 ≤ k) × (k ≤ self.now.count) }
        ensures { result ≡ main_number (history_of self.now) (k - 1) }
    {
        word(self.index, k, Column::MAINS) as usize
    }

    // The number of the cast or spoil under item number k: 0 for other items and open ballots.
    pub fn closer(&self, k: usize) -> usize
        requires { (1 ≤ k) × (k ≤ self.now.count) }
        ensures { result ≡ closer_of (history_of self.now) k }
    {
        number_in(word(self.index, k, Column::CLOSER))
    }
}
