// What the program prints, as bytes in a buffer that the caller lends, and the sizes of files that it refuses.
#![tactic(auto)]

ghost use Rattle.std.specs.Prelude.{◌+◌, ◌*◌, ◌≤◌, length};
ghost use Rattle.model.specs.Audit.{ballot_row};
ghost use Rattle.report.specs.Reported.{reported};
ghost use Rattle.text.specs.Answer.{text_from, report_text};
ghost use Rattle.text.specs.Put.{Shown};

use line::LINE;
use report::Report;
use writer::Writer;

pub mod line;
pub mod size;
pub mod writer;

// Writes the text of an answer, and gives its length. A number of 0 is acceptance; the table's first rows are those of the ballots.
pub fn text_from(
    out: &mut [u8],
    number: u32,
    items: u32,
    mains: u32,
    ballots: u32,
    weight: u64,
    table: &[u32],
) -> usize
    requires room { LINE * (1 + ballots) ≤ length out.old }
    requires rows { ballot_row * ballots ≤ length table.now }
    ensures { Shown out.old (text_from number items mains ballots weight table.now) out.new result }
{
    let mut text = Writer { out, at: 0 };
    if number != 0 {
        line::refused_line(&mut text, number, items);
        return text.at;
    }
    line::accepted_line(&mut text, items, mains, ballots, weight);
    line::row_lines(&mut text, table, ballots as usize);
    text.at
}

// The same of a report.
pub fn text_of(out: &mut [u8], report: &Report, table: &[u32]) -> usize
    requires room { LINE * (1 + (reported report.now).ballots) ≤ length out.old }
    requires rows { ballot_row * (reported report.now).ballots ≤ length table.now }
    ensures { Shown out.old (report_text (reported report.now) table.now) out.new result }
{
    match report {
        Ok(a) => text_from(out, 0, a.items, a.mains, a.ballots, a.weight, table),
        Err(r) => text_from(out, u32::from(r.refusal), r.items, 0, 0, 0, table),
    }
}
