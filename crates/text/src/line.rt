// The lines that are printed.
ghost use Rattle.std.specs.Prelude.{[], ◌∷◌, ◌+◌, ◌*◌, ◌≤◌, length, take};
ghost use Rattle.model.specs.Audit.{ballot_row};
ghost use Rattle.model.specs.Program.{refused_line, accepted_line, row_lines};
ghost use Rattle.text.specs.Put.{Writes};

use crate::writer::Writer;

// Room for any line. The longest is `accepted` with three words and a number of 64 bits: 63 bytes.
pub const LINE: usize = 64;

// Words of a row of the ballot table.
const ROW: usize = 3;

// `refused`, number, `at`, items passed.
pub fn refused_line(text: &mut Writer, number: u32, items: u32)
    requires { text.old.at + LINE ≤ length text.old.out.now }
    ensures { Writes text.old (refused_line number items) text.new }
{
    text.bytes(b"refused");
    text.spaced(number as u64);
    text.bytes(b" at");
    text.spaced(items as u64);
    text.byte(b'\n');
}

// `accepted`, items, main items, ballots, weight.
pub fn accepted_line(text: &mut Writer, items: u32, mains: u32, ballots: u32, weight: u64)
    requires { text.old.at + LINE ≤ length text.old.out.now }
    ensures { Writes text.old (accepted_line items mains ballots weight) text.new }
{
    text.bytes(b"accepted");
    text.spaced(items as u64);
    text.spaced(mains as u64);
    text.spaced(ballots as u64);
    text.spaced(weight);
    text.byte(b'\n');
}

// The three words of a row of the ballot table.
fn row_line(text: &mut Writer, ballot: u32, voter: u32, weight: u32)
    requires { text.old.at + LINE ≤ length text.old.out.now }
    ensures { Writes text.old (row_lines (ballot ∷ voter ∷ weight ∷ [])) text.new }
{
    text.decimal(ballot as u64);
    text.spaced(voter as u64);
    text.spaced(weight as u64);
    text.byte(b'\n');
}

// A line for each of the first rows of the ballot table.
pub fn row_lines(text: &mut Writer, table: &[u32], rows: usize)
    requires room { text.old.at + LINE * rows ≤ length text.old.out.now }
    requires rows { ballot_row * rows ≤ length table.now }
    ensures { Writes text.old (row_lines (take (ballot_row * rows) table.now)) text.new }
{
    let (words, _) = table[..ROW * rows].as_chunks::<ROW>();
    for row in words {
        row_line(text, row[0], row[1], row[2]);
    }
}
