// The plan of a board: how many items it has, how many words their index rows fill, and over how many blocks their addresses are hashed.
// It is read off the heads: an item's other words are not read, and nothing is hashed. Paper: request (x).
#![tactic(auto)]

ghost use Rattle.std.specs.Prelude.{◌≡◌, false, ◌<◌, ◌≤◌, length, get_or};
ghost use Rattle.model.specs.Audit.{word_limit, is_empty};
ghost use Rattle.format.specs.Format.{widths_of};
ghost use Rattle.refusal.specs.Number.{found_of};
ghost use Rattle.planning.specs.Plan.{plan, hash_on, blocks_for};
ghost use Rattle.plan.specs.Planned.{planned, plan_from, IsLook, Read, closing_read, word_fault, Known, known_after};

use format::format::Format;
use format::head::Head;
use format::item::Item;
use format::limit::Limit;
use format::{board, table};
use refusal::{Refusal, Refused};

// Items, words of their index rows, and blocks of their addresses.
#[derive(Clone, Copy)]
pub struct Plan {
    pub items: u32,
    pub index_words: u32,
    pub blocks: u32,
}

impl Plan {
    // The plan of a board, or what is wrong and the items whose heads passed.
    pub fn of(board: &[u32]) -> Result<Plan, Refused>
        ensures { planned result ≡ plan board.now }
    {
        // 1 oversize: more words than the limit
        if Limit::WORDS < board.len() {
            return Err(Refused::after(Refusal::TooLarge, 0));
        }
        // 3 blank
        if board::is_empty(board) {
            return Err(Refused::after(Refusal::EmptyBoard, 0));
        }
        read(board)
    }
}

// What is seen of a head: the place behind its item, and the blocks of its address.
#[derive(Clone, Copy)]
pub struct Seen {
    pub end: usize,
    pub blocks: usize,
}

// How far the heads are read: the items whose heads passed, the place behind them, and the blocks of their addresses.
#[derive(Clone, Copy)]
pub struct Heads {
    pub items: usize,
    pub place: usize,
    pub blocks: usize,
}

// The head of a cast, which is in the table of every board.
const CAST: u32 = 0x1014_0000;

// The blocks of a message of so many words, padded, by the hash of a curve: SHA-256 has blocks of 16 words, of which the padding needs
// three; SHA-384 and SHA-512 have blocks of 32, of which it needs five.
fn blocks_of(curve: u32, words: usize) -> usize
    requires { words ≤ word_limit }
    ensures { result ≡ blocks_for (hash_on curve) words }
{
    match curve {
        Format::SECP384R1 | Format::SECP521R1 => (words + 36) / 32,
        _ => (words + 18) / 16,
    }
}

// 5 and 6, of a head word.
fn word_finding(board: &[u32], word: u32) -> Result<(), Refusal>
    ensures { found_of result ≡ word_fault board.now word }
{
    let head = Head::of(word);
    // 5 stranger
    let Some(row) = table::row_of(board, head.kind, head.code) else {
        return Err(Refusal::UnknownType);
    };
    // 6 misfit
    if !row.counts.fits(head.count) {
        return Err(Refusal::WrongCount);
    }
    Ok(())
}

// The same, and the word is kept where it passes: most heads of a type are one word, for which the table is then asked once.
fn known_finding(board: &[u32], word: u32, known: &mut [u32]) -> Result<(), Refusal>
    requires { Known board.now known.old }
    ensures answer { found_of result ≡ word_fault board.now word }
    ensures known { known.new ≡ known_after board.now word known.old }
{
    let slot = ((word >> 16) % 64) as usize;
    if known[slot] == word {
        return Ok(());
    }
    word_finding(board, word)?;
    known[slot] = word;
    Ok(())
}

// Looks at the head at a place: 5, 6, 4.
fn look_at(board: &[u32], format: Format, place: usize, known: &mut [u32]) -> Result<Seen, Refusal>
    requires place_in_bounds { (place < length board.now) × (length board.now ≤ word_limit) }
    requires format_value { (format ≡ widths_of board.now) × (Known board.now known.old) }
    ensures answer { IsLook board.now place result }
    ensures known { known.new ≡ known_after board.now (get_or board.now place 0) known.old }
{
    let word = board[place];
    known_finding(board, word, known)?;
    // 4 torn: the item runs past the end
    let hashed = 1 + Head::of(word).count + 2 * format.address + Item::TIME;
    let end = place + hashed + format.signature + format.address;
    if board.len() < end {
        return Err(Refusal::Truncated);
    }
    Ok(Seen {
        end,
        blocks: blocks_of(format.curve, hashed),
    })
}

// The plan at the closing word.
fn close(board: &[u32], s: Heads) -> Result<Plan, Refused>
    requires { (Read board.now s) × (s.place < length board.now) × (length board.now ≤ word_limit) }
    ensures { planned result ≡ plan_from board.now (closing_read board.now s) }
{
    // 18 bad close
    if !board::is_closed(board, s.items, s.place) {
        return Err(Refused::after(Refusal::BadClosing, s.items));
    }
    Ok(Plan {
        items: s.items as u32,
        index_words: (Limit::INDEX_ROW * s.items) as u32,
        blocks: s.blocks as u32,
    })
}

// Reads the heads up to the first refusal or the closing word.
fn read(board: &[u32]) -> Result<Plan, Refused>
    requires { (length board.now ≤ word_limit) × (is_empty board.now ≡ false) }
    ensures { planned result ≡ plan board.now }
{
    let format = Format::of(board);
    let mut known = [CAST; 64];
    let mut s = Heads {
        items: 0,
        place: 0,
        blocks: 0,
    };
    loop {
        let place = s.place;
        // 4 torn: no closing word
        if board.len() <= place {
            return Err(Refused::after(Refusal::Truncated, s.items));
        }
        if Head::of(board[place]).kind == Head::CLOSING {
            return close(board, s);
        }
        // 1 oversize: a word after the last item that may be
        if s.items == Limit::ITEMS {
            return Err(Refused::after(Refusal::TooLarge, s.items));
        }
        match look_at(board, format, place, &mut known) {
            Err(refusal) => return Err(Refused::after(refusal, s.items)),
            Ok(seen) => {
                s = Heads {
                    items: s.items + 1,
                    place: seen.end,
                    blocks: s.blocks + seen.blocks,
                };
            }
        }
    }
}
