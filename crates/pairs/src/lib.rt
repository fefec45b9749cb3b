// Comparing the main items of a kept board with those of a later one, from a main number of the later one backwards. Both boards are read
// through the index tables that their audits left.
#![tactic(auto)]

ghost use Rattle.std.specs.Prelude.{◌≡◌, ◌≤◌};
ghost use Rattle.model.specs.Lists.{count};
ghost use Rattle.model.specs.Words.{same_words};
ghost use Rattle.model.specs.History.{main, main_item};
ghost use Rattle.model.specs.Compare.{backwards, compare};
ghost use Rattle.index.specs.Passed.{history_of};
ghost use Rattle.pairs.specs.Agreement.{agreement_of};
ghost use Rattle.pairs.specs.Reading.{Read, IsItem, Numbered, mains_of, hashed_at, hashed_main};

use format::item::Item;
use index::passed::Passed;

// What comparing two boards finds.
#[derive(Clone, Copy)]
pub enum Agreement {
    // The kept board's end address does not stand at the item asked for.
    Apart,
    // All pairs have the same hashed words.
    Same,
    // The main numbers, in the kept board and in the later one, of the first pair back whose hashed words differ.
    Collision { kept: u32, later: u32 },
}

// Whether two items have the same hashed words: all words up to the signature.
#[tactic(auto, using(crate::proofs::Hashed::ends))]
pub fn same_hashed(kept: &[u32], a: Item, later: &[u32], b: Item) -> bool
    requires { (Read kept.now a) × (Read later.now b) }
    ensures { result ≡ same_words (hashed_at kept.now a.place) (hashed_at later.now b.place) }
{
    words::same_words(&kept[a.place..a.signature], &later[b.place..b.signature])
}

// The main item of a main number.
pub fn main_item(passed: &Passed, number: usize) -> Item
    requires { Numbered passed.now.board.now passed.now.count number }
    ensures { IsItem passed.now.board.now (main_item (mains_of passed.now.board.now passed.now.count) number) result }
{
    let k = lookup::main_entry(passed, number);
    passed.entry(k).item
}

// Whether main item a of the kept board and main item b of the later one have the same hashed words.
fn same_pair(kept: &Passed, a: usize, later: &Passed, b: usize) -> bool
    requires a_in { Numbered kept.now.board.now kept.now.count a }
    requires b_in { Numbered later.now.board.now later.now.count b }
    ensures { result ≡ same_words (hashed_main kept.now.board.now kept.now.count a) (hashed_main later.now.board.now later.now.count b) }
{
    let i = main_item(kept, a);
    let j = main_item(later, b);
    same_hashed(kept.board, i, later.board, j)
}

// The pairs (a, b), (a - 1, b - 1), .. while both are at least 1: the first whose hashed words differ.
pub fn backwards(kept: &Passed, a: usize, later: &Passed, b: usize) -> Agreement
    requires a_in { a ≤ count main (history_of kept.now) }
    requires b_in { b ≤ count main (history_of later.now) }
    ensures { agreement_of result
        ≡ backwards (mains_of kept.now.board.now kept.now.count) (mains_of later.now.board.now later.now.count) a b }
{
    for k in 0..a.min(b) {
        let x = a - k;
        let y = b - k;
        if !same_pair(kept, x, later, y) {
            return Agreement::Collision {
                kept: x as u32,
                later: y as u32,
            };
        }
    }
    Agreement::Same
}

// All main items of the kept board, a of them, and the first b of the later one.
#[tactic(auto, using(crate::proofs::Hashed::ends))]
pub fn compare(kept: &Passed, a: usize, later: &Passed, b: usize) -> Agreement
    requires a_all { (1 ≤ a) × (a ≡ count main (history_of kept.now)) }
    requires b_in { Numbered later.now.board.now later.now.count b }
    ensures { agreement_of result
        ≡ compare (mains_of kept.now.board.now kept.now.count) (mains_of later.now.board.now later.now.count) b }
{
    let end = main_item(kept, a);
    let asked = main_item(later, b);
    let end_address = &kept.board[end.address..end.end];
    let asked_address = &later.board[asked.address..asked.end];
    if !words::same_words(end_address, asked_address) {
        return Agreement::Apart;
    }
    backwards(kept, a, later, b)
}
