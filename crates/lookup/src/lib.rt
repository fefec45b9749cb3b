// Searches among the items that were passed: the parent and the session of an item, the latest session of a voter, the children of an
// item, a main item by its main number. Each reads the board through the index table; the searches for a parent and for a session pass
// the items of one bucket alone, by their chain tables.
#![tactic(auto)]

ghost use Rattle.std.specs.Prelude.{◌≡◌, ◌-◌, ◌≤◌, length, eqb};
ghost use Rattle.model.specs.Lists.{if◌then◌otherwise◌, any};
ghost use Rattle.model.specs.Words.{main_kind};
ghost use Rattle.model.specs.History.{entry, first, last, parent_number, session_number, child_of};
ghost use Rattle.model.specs.Phase.{session_of};
ghost use Rattle.format.specs.Format.{format_of};
ghost use Rattle.format.specs.Layout.{item_of, item_on};
ghost use Rattle.index.specs.Passed.{history_of};
ghost use Rattle.lookup.specs.Search.{addressed, main_entry};

use crate::chained::{Parents, Sessions};
use format::head::Head;
use format::item::Item;
use index::Known;
use index::passed::Passed;

pub mod bucket;
pub mod chained;

// Whether item number k is of a kind, main or hidden, and has an address.
fn is_addressed(passed: &Passed, k: usize, main: bool, address: &[u32]) -> bool
    requires { (1 ≤ k) × (k ≤ passed.now.count) × (length address.now ≡ (format_of passed.now.board.now).address) }
    ensures { result ≡ addressed main address.now (entry (history_of passed.now) k) }
{
    let item = passed.entry(k).item;
    (item.head.kind == Head::MAIN) == main
        && words::same_words(
            words::part(passed.board, item.address, address.len()),
            address,
        )
}

// The number of the first item, main or hidden, with an address; 0 where there is none. The chain of its bucket goes from the latest item
// back, so it is the last one found. It has two callers, and the audit, which asks for each item, takes less time with the search in it.
#[inline(always)]
pub fn first_addressed(parents: &Parents, main: bool, address: &[u32]) -> usize
    requires { length address.now ≡ (format_of parents.now.passed.board.now).address }
    ensures { result ≡ first (addressed main address.now) (history_of parents.now.passed) }
{
    let mut number = chains::last(parents.chain, bucket::of_address(address[0]));
    let mut found = 0;
    while number != 0 {
        if is_addressed(&parents.passed, number, main, address) {
            found = number;
        }
        number = chains::behind(parents.chain, number);
    }
    found
}

// The number of the parent of the item at a place, after the items that passed: its own for genesis, 0 where it is not found.
pub fn parent_number(parents: &Parents, item: Item) -> usize
    requires { (item ≡ item_of parents.now.passed.board.now item.place) × (item.end ≤ length parents.now.passed.board.now) }
    ensures { result ≡ parent_number (history_of parents.now.passed) (item_on parents.now.passed.board.now item.place) }
{
    let code = item.head.code;
    if code == Head::GENESIS {
        return parents.passed.count + 1;
    }
    let address = &parents.passed.board[item.parent..item.previous];
    first_addressed(parents, code <= Head::TRACK, address)
}

// The number of its session, from that of its parent: its own for a session, 0 where it has none.
pub fn session_number(passed: &Passed, item: Item, parent: usize) -> usize
    requires item_value { (item ≡ item_of passed.now.board.now item.place) × (item.end ≤ length passed.now.board.now) }
    requires parent_value { parent ≡ parent_number (history_of passed.now) (item_on passed.now.board.now item.place) }
    ensures { result ≡ session_number (history_of passed.now) (item_on passed.now.board.now item.place) }
{
    let code = item.head.code;
    if code == Head::GENESIS {
        return 0;
    }
    if code == Head::SESSION {
        return passed.count + 1;
    }
    if parent == 0 {
        return 0;
    }
    passed.entry(parent).session
}

// Whether item number k is a session of a voter.
fn is_session_of(passed: &Passed, k: usize, voter: u32) -> bool
    requires { (1 ≤ k) × (k ≤ passed.now.count) }
    ensures { result ≡ session_of voter (entry (history_of passed.now) k) }
{
    let item = passed.entry(k).item;
    item.head.code == Head::SESSION && passed.board[item.content] == voter
}

// The number of the latest session of a voter; 0 where there is none.
pub fn latest_session(sessions: &Sessions, voter: u32) -> usize
    ensures { result ≡ last (session_of voter) (history_of sessions.now.passed) }
{
    let mut k = chains::last(sessions.chain, bucket::of_voter(voter));
    while k != 0 {
        if is_session_of(&sessions.passed, k, voter) {
            return k;
        }
        k = chains::behind(sessions.chain, k);
    }
    0
}

// Whether item number k stands under a parent and is of a type. Its head is read only where the parent is that one.
fn is_child(passed: &Passed, k: usize, parent: usize, code: u32) -> bool
    requires { (1 ≤ k) × (k ≤ passed.now.count) }
    ensures { result ≡ child_of parent (λ c. eqb c code) (entry (history_of passed.now) k) }
{
    passed.parent(k) == parent && passed.entry(k).item.head.code == code
}

// Whether an item of a type stands under a parent. No item stands before its parent, and item numbers begin with 1.
pub fn has_child(passed: &Passed, parent: usize, code: u32) -> bool
    ensures { result ≡ any (child_of parent (λ c. eqb c code)) (history_of passed.now) }
{
    for child in parent.max(1)..=passed.count {
        if is_child(passed, child, parent, code) {
            return true;
        }
    }
    false
}

// How many main items are left to pass, where the last of them is sought: one less after a main item.
fn left_after(e: Known, left: usize) -> usize
    requires { 1 ≤ left }
    ensures { result ≡ (if eqb e.item.head.kind main_kind then left - 1 otherwise left) }
{
    if e.item.head.kind == Head::MAIN {
        left - 1
    } else {
        left
    }
}

// The item number of a main number; 0 where there is none. No item before that number can have it, so the search begins there.
pub fn main_entry(passed: &Passed, number: usize) -> usize
    ensures { result ≡ main_entry (history_of passed.now) number }
{
    if number == 0 || passed.count < number {
        return 0;
    }
    let mut left = number - passed.mains_before(number);
    for k in number..=passed.count {
        left = left_after(passed.entry(k), left);
        if left == 0 {
            return k;
        }
    }
    0
}
