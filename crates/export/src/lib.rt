// The export of a board that was accepted: its main items as lines of JSON in a buffer of bytes. One pass over the items tells the length
// of the text, and where the buffer has room for it another writes it.
#![tactic(auto)]

ghost use Rattle.std.specs.Prelude.{◌≡◌, ◌+◌, ◌≤◌, ◌<◌, length};
ghost use Rattle.model.specs.History.{entry};
ghost use Rattle.model.specs.Audit.{accepted};
ghost use Rattle.exporting.specs.Export.{export_text, export_outcome, text_after};
ghost use Rattle.index.specs.Passed.{history_of};
ghost use Rattle.text.specs.Put.{Writes};
ghost use Rattle.export.specs.Lines.{entry_text, bytes_in};

use format::head::Head;
use index::passed::Passed;
use text::writer::Writer;

pub mod hex;
pub mod line;
pub mod size;

// Writes the line of the item after the first done, if it is a main item.
fn put_next(out: &mut Writer, passed: &Passed, done: usize)
    requires more { done < passed.now.count }
    requires room { out.old.at + length (entry_text (entry (history_of passed.now) (done + 1))) ≤ length out.old.out.now }
    ensures { Writes out.old (entry_text (entry (history_of passed.now) (done + 1))) out.new }
{
    let item = passed.entry(done + 1).item;
    if item.head.kind != Head::MAIN {
        return;
    }
    line::put_line(out, passed.board, item);
}

// Writes the line of each main item, where there is room for all.
fn put_all(passed: &Passed, text: &mut [u8])
    requires { length (export_text (history_of passed.now)) ≤ length text.old }
    ensures { text.new ≡ text_after (accepted (history_of passed.now)) text.old }
{
    let mut out = Writer { out: text, at: 0 };
    for done in 0..passed.count {
        put_next(&mut out, passed, done);
    }
}

// Exports a board that was accepted, and gives how many bytes its text has. Where the buffer is shorter than the text, no byte is written.
pub fn export_accepted(passed: &Passed, text: &mut [u8]) -> Option<u32>
    ensures bytes { result ≡ bytes_in (length text.old) (history_of passed.now) }
    ensures text { text.new
        ≡ text_after (export_outcome (length text.old) (accepted (history_of passed.now))) text.old }
{
    let bytes = size::of_text(passed);
    if text.len() < bytes {
        return None;
    }
    put_all(passed, text);
    Some(bytes as u32)
}
