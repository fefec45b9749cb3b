// The index table: a row of five words for each item that was passed. It is read by item number, grows by a row, and a cast or spoil is
// written into the row of its ballot.
#![tactic(auto)]

ghost use Rattle.std.specs.Prelude.{◌≡◌, ◌+◌, ◌-◌, ◌≤◌, ◌<◌, length, T};
ghost use Rattle.model.specs.Audit.{item_limit, index_row, index_need};
ghost use Rattle.model.specs.History.{entry, main_number, cast_or_spoil, closer};
ghost use Rattle.model.specs.Report.{number_word, row_word};
ghost use Rattle.index.specs.Kept.{before, Kept};
ghost use Rattle.index.specs.Known.{IsKnown, Passing};
ghost use Rattle.index.specs.Rows.{number_in, closed_by};

use format::head;
use format::head::Head;
use format::item::Item;
use format::limit::Limit;

pub mod addition;
pub mod passed;

// An item that was passed, or one that is judged: where its parts stand, the item number of its parent (its own for genesis, 0 where it is
// not found), and that of its session (its own for a session, 0 where it has none).
#[derive(Clone, Copy)]
pub struct Known {
    pub item: Item,
    pub parent: usize,
    pub session: usize,
}

// The columns of a row, which has Limit::INDEX_ROW words: the place of the item's head, its parent, its session, the main items before it,
// and the cast or spoil under it.
struct Column {}

impl Column {
    const PLACE: usize = 0;

    const PARENT: usize = 1;

    const SESSION: usize = 2;

    const MAINS: usize = 3;

    const CLOSER: usize = 4;

    // The word for no item, in the columns of the session and of the closer.
    const NO_NUMBER: u32 = 4_294_967_295;
}

// An item number from its word in a row: 0 where there is none.
fn number_in(word: u32) -> usize
    ensures { result ≡ number_in word }
{
    if word == Column::NO_NUMBER {
        0
    } else {
        word as usize
    }
}

// The word of an item number in a row.
fn number_word(number: usize) -> u32
    requires { number ≤ item_limit }
    ensures { result ≡ number_word number }
{
    if number == 0 {
        Column::NO_NUMBER
    } else {
        number as u32
    }
}

// The word at a column of the row of item number k. `Passed::parent`, `mains_before` and `closer` read that and no word of
// the board, which stands in their contracts only.
fn word(index: &[u32], k: usize, column: usize) -> u32
    requires { (1 ≤ k) × (k ≤ item_limit) × (column < index_row) × (index_need ≤ length index.now) }
    ensures { result ≡ row_word index.now k column }
{
    let row = Limit::INDEX_ROW * (k - 1);
    index[row + column]
}

// Writes a cast or spoil, the item after the first count, into the row of its ballot.
fn put_closer(index: &mut [u32], count: usize, c: Known)
    requires count_lt_item_limit { (count < item_limit) × (index_need ≤ length index.old) }
    requires le_parent { T (cast_or_spoil c.item.head.code) → (1 ≤ c.parent) × (c.parent ≤ item_limit) }
    ensures { index.new ≡ closed_by c (count + 1) index.old }
{
    if !head::is_between(Head::CAST, Head::SPOIL, c.item.head.code) {
        return;
    }
    let row = Limit::INDEX_ROW * (c.parent - 1);
    index[row + Column::CLOSER] = (count + 1) as u32;
}

// Writes the row of the item after the first count, which passes, and what it closes: mains is the number of main items before it.
pub fn put(board: &[u32], index: &mut [u32], count: usize, c: Known, mains: usize)
    requires { (Passing board.now index.old count c) × (mains ≡ main_number (before board.now count) count) }
    ensures { Kept board.now index.new (count + 1) }
{
    let row = Limit::INDEX_ROW * count;
    index[row + Column::PLACE] = c.item.place as u32;
    index[row + Column::PARENT] = c.parent as u32;
    index[row + Column::SESSION] = number_word(c.session);
    index[row + Column::MAINS] = mains as u32;
    index[row + Column::CLOSER] = Column::NO_NUMBER;
    put_closer(index, count, c);
}
