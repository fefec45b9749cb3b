// Checks 7 to 10: an item's address, its previous item, its parent and its time. Each is equal to its definition in the model.
#![tactic(auto)]

ghost use Rattle.std.specs.Prelude.{◌≡◌, ◌≤◌, length, eqb};
ghost use Rattle.model.specs.Lists.{if◌then◌otherwise◌};
ghost use Rattle.model.specs.Words.{main_kind};
ghost use Rattle.model.specs.Links.{address_ok, previous_ok, parent_ok, time_ok};
ghost use Rattle.format.specs.Format.{format_of};
ghost use Rattle.format.specs.Layout.{item_of, item_on};
ghost use Rattle.format.specs.Table.{parent_rule_of};
ghost use Rattle.state.specs.Reached.{history_before, item_at, rule_at};

use format::format::Format;
use format::head::Head;
use format::item::Item;
use format::table::ParentRule;
use state::candidate::{Candidate, ListedItem};

// 7 false address: whether the address is the hash of the item's hashed words, which are read where they stand on the board.
pub fn address_ok(board: &[u32], item: Item) -> bool
    requires { (item ≡ item_of board.now item.place) × (item.end ≤ length board.now) }
    ensures { result ≡ address_ok (format_of board.now) (item_on board.now item.place) }
{
    let format = Format::of(board);
    let place = item.place;
    let end = item.signature;
    let digest = digests::digest(format.curve, &board[place..end]);
    words::same_words(
        words::part(&digest, 0, format.address),
        words::part(board, item.address, format.address),
    )
}

// 8 broken history: whether a main item names the main item before it, and a hidden item its parent.
pub fn previous_ok(next: &Candidate) -> bool
    ensures { result ≡ rule_at previous_ok next.now }
{
    let board = next.board;
    let item = next.known.item;
    let last = next.state.last;
    let width = Format::of(board).address;
    let previous = words::part(board, item.previous, width);
    if item.head.kind != Head::MAIN {
        return words::same_words(previous, words::part(board, item.parent, width));
    }
    if last == 0 {
        return words::is_zero(previous);
    }
    let e = next.entry(last);
    words::same_words(previous, words::part(board, e.item.address, width))
}

// 9 orphan: whether the parent is found, and is as listed.
pub fn parent_ok(listed: &ListedItem) -> bool
    ensures { result ≡ parent_ok (format_of listed.now.candidate.now.board.now) (history_before listed.now.candidate.now)
        (parent_rule_of listed.now.row.parent) (item_at listed.now.candidate.now) }
{
    let next = listed.candidate;
    let parent = next.known.parent;
    match listed.row.parent {
        ParentRule::Zeros => {
            let board = next.board;
            words::is_zero(words::part(board, next.known.item.parent, Format::of(board).address))
        }
        ParentRule::LatestConfig => parent != 0 && parent == next.state.config,
        ParentRule::OfType(code) => parent != 0 && next.entry(parent).item.head.code == code,
    }
}

// The number of the item that an item must not be earlier than: the last main item, for a hidden item its parent; 0 if there is none.
fn earlier(next: &Candidate) -> usize
    ensures { result ≡ (if eqb next.now.known.item.head.kind main_kind then next.now.state.last otherwise next.now.known.parent) }
{
    if next.known.item.head.kind == Head::MAIN {
        return next.state.last;
    }
    next.known.parent
}

// 10 backward clock: whether the time is not less than the previous main item's, for a hidden item its parent's.
pub fn time_ok(next: &Candidate) -> bool
    ensures { result ≡ time_ok (history_before next.now) (item_at next.now) }
{
    let number = earlier(next);
    if number == 0 {
        return true;
    }
    let board = next.board;
    let e = next.entry(number);
    words::pair_at(board, e.item.time) <= words::pair_at(board, next.known.item.time)
}
