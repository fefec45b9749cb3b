// The line of a main item: an object with six members, whose keys are fixed bytes.
ghost use Rattle.std.specs.Prelude.{◌++◌, ◌+◌, ◌*◌, ◌≤◌, length};
ghost use Rattle.exporting.specs.Export.{word_digits, hex_words, line_of};
ghost use Rattle.format.specs.Layout.{item_on};
ghost use Rattle.text.specs.Put.{Writes};
ghost use Rattle.export.specs.Lines.{numbers_text, strings_text, Whole};

use crate::hex;
use format::item::Item;
use text::writer::Writer;

// The bracket and the members with numbers: type and time.
fn put_numbers(out: &mut Writer, code: u32, time: u64)
    requires { out.old.at + length (numbers_text code time) ≤ length out.old.out.now }
    ensures { Writes out.old (numbers_text code time) out.new }
{
    out.bytes(b"{\"type\":");
    out.decimal(code as u64);
    out.bytes(b",\"time\":");
    out.decimal(time);
}

// Words in hexadecimal, behind what stands before them: a key and the quotes.
fn put_string(out: &mut Writer, key: &[u8], words: &[u32])
    requires { out.old.at + length key.now + word_digits * length words.now ≤ length out.old.out.now }
    ensures { Writes out.old (key.now ++ hex_words words.now) out.new }
{
    out.bytes(key);
    hex::put_words(out, words);
}

// The members with strings, parent, previous, address and content, the bracket and the end of the line.
fn put_strings(out: &mut Writer, board: &[u32], item: Item)
    requires { (Whole board.now item) × (out.old.at + length (strings_text (item_on board.now item.place)) ≤ length out.old.out.now) }
    ensures { Writes out.old (strings_text (item_on board.now item.place)) out.new }
{
    let width = item.end - item.address;
    let parent = &board[item.parent..item.parent + width];
    let previous = &board[item.previous..item.previous + width];
    let address = &board[item.address..item.end];
    let content = &board[item.content..item.content + item.head.count];
    put_string(out, b",\"parent\":\"", parent);
    put_string(out, b"\",\"previous\":\"", previous);
    put_string(out, b"\",\"address\":\"", address);
    put_string(out, b"\",\"content\":\"", content);
    out.bytes(b"\"}\n");
}

// The line of an item.
pub fn put_line(out: &mut Writer, board: &[u32], item: Item)
    requires { (Whole board.now item) × (out.old.at + length (line_of (item_on board.now item.place)) ≤ length out.old.out.now) }
    ensures { Writes out.old (line_of (item_on board.now item.place)) out.new }
{
    put_numbers(out, item.head.code, words::pair_at(board, item.time));
    put_strings(out, board, item);
}
