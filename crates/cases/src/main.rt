// Audits the boards of data/ and writes what is answered of each, as the auditing program prints it. data/index.txt says what each board
// is: one for each refusal and reason, and sound ones. Refusals 1 and 2 come from boards and tables of their own; 17 is not used.
#![tactic(auto)]

ghost use Rattle.std.specs.Prelude.{◌≤◌, length, IfOk};

use audit::Submission;
use format::limit::Limit;
use report::Report;
use std::io::{self, Write};
use std::rt::Files;

// The boards, numbered from 0.
const BOARDS: usize = 170;

// Words that a board, its verdicts or its roll may have here.
const ROOM: usize = 16_384;

// The bytes of as many words.
const BYTES: usize = 4 * ROOM;

// Bytes of a file's name before its kind, three digits and a dot, and of the longest kind.
const STEM: usize = 4;

const KIND: usize = 8;

// The words of a board's file of a kind, in the room given. A file that can't be opened has none.
fn words_in<'a, R: Files>(
    rt: &R,
    n: usize,
    kind: &str,
    room: &'a mut [u32; ROOM],
) -> io::Result<&'a [u32]>
    requires { length kind.now ≤ KIND }
    ensures within { IfOk result (λ words. length words.now ≤ ROOM) }
{
    // first, so that these zeros are written once
    let mut bytes = [0u8; BYTES];
    let mut name = [0u8; STEM + KIND];
    let mut left = &mut name[..];
    write!(left, "{n:03}.{kind}")?;
    let size = files::read(rt, &name[..STEM + kind.len()], &mut bytes).min(BYTES);
    words::words_of(&bytes[..size], room);
    Ok(&room[..size / 4])
}

// Writes a report: one line, and for an accepted board a line for each row of the ballot table that is counted.
fn print_report<R: Print>(rt: &R, report: &Report, ballots: &[u32]) -> io::Result<()> {
    match report {
        Err(refused) => {
            let number = u32::from(refused.refusal);
            println!(rt; "refused {number} at {}", refused.items)
        }
        Ok(accepted) => {
            println!(rt;
                "accepted {} {} {} {}",
                accepted.items, accepted.mains, accepted.ballots, accepted.weight
            )?;
            let (rows, _) = ballots.as_chunks::<{ Limit::BALLOT_ROW }>();
            for row in rows.iter().take(accepted.ballots as usize) {
                println!(rt; "{} {} {}", row[0], row[1], row[2])?;
            }
            Ok(())
        }
    }
}

// Audits board number n.
fn run<R: Files + Print>(rt: &R, n: usize) -> io::Result<()> {
    let mut board = [0u32; ROOM];
    let mut verdicts = [0u32; ROOM];
    let mut roll = [0u32; ROOM];
    let mut index = [0u32; Limit::INDEX];
    let mut ballots = [0u32; Limit::BALLOTS];
    let submission = Submission {
        board: words_in(rt, n, "board", &mut board)?,
        verdicts: words_in(rt, n, "verdicts", &mut verdicts)?,
        roll: words_in(rt, n, "roll", &mut roll)?,
    };
    let report = audit::audit(&submission, &mut index, &mut ballots);
    print_report(rt, &report, &ballots)
}

// A board past the word limit. The roll is bad, too, which comes later.
fn run_large<R: Print>(rt: &R) -> io::Result<()> {
    let board = [0u32; Limit::WORDS + 1];
    let verdicts = [0u32; 1];
    let mut index = [0u32; Limit::INDEX];
    let mut ballots = [0u32; Limit::BALLOTS];
    let submission = Submission {
        board: &board,
        verdicts: &verdicts,
        roll: &verdicts,
    };
    let report = audit::audit(&submission, &mut index, &mut ballots);
    print_report(rt, &report, &ballots)
}

// Tables that are a word too short: the index table, then the ballot table. The roll is bad, too, which comes later.
fn run_short<R: Print>(rt: &R) -> io::Result<()> {
    let board = [0u32; 1];
    let mut short = [0u32; Limit::INDEX - 1];
    let mut index = [0u32; Limit::INDEX];
    let mut ballots = [0u32; Limit::BALLOTS];
    let mut shorter = [0u32; Limit::BALLOTS - 1];
    let submission = Submission {
        board: &board,
        verdicts: &board,
        roll: &board,
    };
    let first = audit::audit(&submission, &mut short, &mut ballots);
    print_report(rt, &first, &ballots)?;
    let second = audit::audit(&submission, &mut index, &mut shorter);
    print_report(rt, &second, &shorter)
}

fn main(rt: HostRuntime) -> io::Result<()> {
    for n in 0..BOARDS {
        run(&rt, n)?;
    }
    run_large(&rt)?;
    run_short(&rt)
}
