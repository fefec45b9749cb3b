// A watcher's notes, held against a board that was accepted: the first that disagrees, and what is wrong with it. The main item of an
// address is sought in the audit's buckets, which are made anew.
#![tactic(auto)]

ghost use Rattle.std.specs.Prelude.{◌≡◌, ◌<◌, replicate};
ghost use Rattle.watch.specs.Notes.{note_size, note_count, note_at, noted_item, item_before, disagreement, held as held_of, is_bad_notes};
ghost use Rattle.format.specs.Format.{format_of};
ghost use Rattle.index.specs.Passed.{history_of};
ghost use Rattle.chains.specs.Chain.{chain_words};
ghost use Rattle.lookup.specs.Buckets.{parent_chain};
ghost use Rattle.notes.specs.Holding.{Whole, found, agreement_of};

use chains::Chain;
use format::format::Format;
use format::item::Item;
use index::passed::Passed;
use lookup::bucket;
use lookup::chained::Parents;

pub struct Note {}

impl Note {
    // The most notes that are held against a board at once.
    pub const LIMIT: usize = 1024;
}

// What is wrong with a note, numbered as in the words of an answer.
#[derive(Clone, Copy)]
pub enum Disagreement {
    // Its address is no main item's.
    NoMainItem = 2,
    // Its main item is earlier than that of the note before.
    OutOfOrder = 3,
    // Its time is less than that of its main item.
    TooEarly = 4,
}

// The first note that disagrees: its number, from 1, and what is wrong with it.
#[derive(Clone, Copy)]
pub struct Disagrees {
    pub note: u32,
    pub disagreement: Disagreement,
}

// The words of a note: a time and an address of the board's width.
fn size(board: &[u32]) -> usize
    ensures { result ≡ note_size (format_of board.now) }
{
    Item::TIME + Format::of(board).address
}

// Whether they are not whole notes, or too many.
pub fn is_bad(board: &[u32], notes: &[u32]) -> bool
    ensures { result ≡ is_bad_notes (format_of board.now) notes.now }
{
    words::is_bad_run(notes, size(board), Note::LIMIT)
}

// Notes that are held against the items that passed: whole notes of the board's width, not too many.
#[derive(Clone, Copy)]
struct Held<'a, 'n> {
    parents: Parents<'a>,
    notes: &'n [u32],
    ghost whole: { Whole parents.passed.board.now notes.now },
}

// Puts every item into the bucket of its address.
fn link(passed: &Passed, chain: &mut [u32])
    requires { chain.old ≡ replicate chain_words 0 }
    ensures { chain.new ≡ parent_chain passed.now.board.now passed.now.count }
{
    for k in 0..passed.count {
        let at = passed.entry(k + 1).item.address;
        chains::put(chain, bucket::of_address(passed.board[at]), k + 1);
    }
}

// The number of the item that note k means, from 0 on: the first main item with its address; 0 where there is none.
fn meant(held: &Held, k: usize) -> usize
    requires { k < note_count (format_of held.now.parents.passed.board.now) held.now.notes.now }
    ensures { result ≡ noted_item (note_at (format_of held.now.parents.passed.board.now) held.now.notes.now k)
        (history_of held.now.parents.passed) }
{
    let board = held.parents.passed.board;
    let at = size(board) * k + Item::TIME;
    let address = words::part(held.notes, at, Format::of(board).address);
    lookup::first_addressed(&held.parents, true, address)
}

// What is wrong with note k, where the item that it means and that of the note before are known.
fn judge(held: &Held, k: usize, item: usize, last: usize) -> Result<(), Disagreement>
    requires k_bound { k < note_count (format_of held.now.parents.passed.board.now) held.now.notes.now }
    requires item_value { item ≡ noted_item (note_at (format_of held.now.parents.passed.board.now) held.now.notes.now k)
        (history_of held.now.parents.passed) }
    requires last_value { last ≡ item_before (format_of held.now.parents.passed.board.now) held.now.notes.now
        (history_of held.now.parents.passed) k }
    ensures { found result ≡ disagreement (format_of held.now.parents.passed.board.now) held.now.notes.now
        (history_of held.now.parents.passed) k }
{
    if item == 0 {
        return Err(Disagreement::NoMainItem);
    }
    if item < last {
        return Err(Disagreement::OutOfOrder);
    }
    let passed = held.parents.passed;
    let e = passed.entry(item);
    let at = size(passed.board) * k;
    if words::pair_at(held.notes, at) < words::pair_at(passed.board, e.item.time) {
        return Err(Disagreement::TooEarly);
    }
    Ok(())
}

// Holds each note against the board, until one disagrees.
fn hold(held: &Held) -> Result<(), Disagrees>
    ensures { agreement_of result ≡ held_of (format_of held.now.parents.passed.board.now) held.now.notes.now
        (history_of held.now.parents.passed) }
{
    let mut last = 0;
    // Kept: by places, as in `receipts::link`.
    for k in 0..held.notes.len() / size(held.parents.passed.board) {
        let item = meant(held, k);
        if let Err(disagreement) = judge(held, k, item, last) {
            return Err(Disagrees {
                note: (k + 1) as u32,
                disagreement,
            });
        }
        last = item;
    }
    Ok(())
}

// Holds notes against a board that was accepted: the first that disagrees, or that all agree.
pub fn hold_accepted(passed: &Passed, notes: &[u32]) -> Result<(), Disagrees>
    requires { Whole passed.now.board.now notes.now }
    ensures { agreement_of result ≡ held_of (format_of passed.now.board.now) notes.now (history_of passed.now) }
{
    let mut chain = [0; Chain::WORDS];
    link(passed, &mut chain);
    let parents = Parents {
        passed: *passed,
        chain: &chain,
    };
    let held = Held { parents, notes };
    hold(&held)
}
