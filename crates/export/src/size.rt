// How many bytes an export has, told from the items before any is written.
ghost use Rattle.std.specs.Prelude.{◌≡◌, ◌+◌, ◌^◌, ◌<◌, ◌≤◌, length};
ghost use Rattle.model.specs.History.{entry};
ghost use Rattle.model.specs.Program.{decimal};
ghost use Rattle.exporting.specs.Export.{line_of, export_text};
ghost use Rattle.format.specs.Layout.{item_on};
ghost use Rattle.index.specs.Passed.{history_of};
ghost use Rattle.export.specs.Lines.{entry_text, line_limit, Whole};

use crate::hex;
use format::head::Head;
use format::item::Item;
use index::passed::Passed;
use itoa::Buffer;

// Bytes of a line beside its digits: brackets, keys, quotes, colons, commas and the byte that ends it.
const FRAME: usize = 70;

// The decimal digits of a number.
fn digits(n: u64) -> usize
    ensures { result ≡ length (decimal n) }
{
    Buffer::new().format(n).len()
}

// The line of an item.
fn of_line(board: &[u32], item: Item) -> usize
    requires { Whole board.now item }
    ensures size { result ≡ length (line_of (item_on board.now item.place)) }
    ensures few { result ≤ line_limit }
{
    let width = item.end - item.address;
    let numbers = digits(item.head.code as u64) + digits(words::pair_at(board, item.time));
    FRAME + numbers + hex::DIGITS * (3 * width + item.head.count)
}

// The line of the item after the first done, if it is a main item.
fn of_next(passed: &Passed, done: usize) -> usize
    requires { done < passed.now.count }
    ensures size { result ≡ length (entry_text (entry (history_of passed.now) (done + 1))) }
    ensures few { result ≤ line_limit }
{
    let item = passed.entry(done + 1).item;
    if item.head.kind != Head::MAIN {
        return 0;
    }
    of_line(passed.board, item)
}

// The lines of all main items of a board that was accepted.
pub fn of_text(passed: &Passed) -> usize
    ensures size { result ≡ length (export_text (history_of passed.now)) }
    ensures few { result < 2 ^ 32 }
{
    let mut total = 0;
    for done in 0..passed.count {
        total += of_next(passed, done);
    }
    total
}
