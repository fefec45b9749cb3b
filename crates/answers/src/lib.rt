// The answers of the entries as words, for callers in other languages.
#![tactic(auto)]

ghost use Rattle.std.specs.Prelude.{◌≡◌, ◌+◌, ◌/◌, ◌%◌, ◌^◌, ◌≤◌, length};
ghost use Rattle.report.specs.Reported.{reported};
ghost use Rattle.compare.specs.Answer as comparing;
ghost use Rattle.ancestry.specs.Answer as listed;
ghost use Rattle.notes.specs.Holding.{way_of};
ghost use Rattle.answers.specs.Words.{overwritten, audit_size, head_words, answer_words};
ghost use Rattle.answers.specs.Words.{compare_size, board_word, comparison_words, ancestry_size, listing_words};
ghost use Rattle.plan.specs.Planned.{planned};
ghost use Rattle.answers.specs.Words.{notes_size, way_word, said, agreement_words, held_words};
ghost use Rattle.answers.specs.Words.{export_size, exported_words, plan_size, plan_words};

use compare::{Board, RefusedBoard};
use notes::{Disagreement, Disagrees};
use pairs::Agreement;
use plan::Plan;
use refusal::Refused;
use report::{Accepted, Report};

// Words of an answer.
pub struct Size {}

impl Size {
    // Before the end address of a report.
    const HEAD: usize = 6;

    pub const AUDIT: usize = Size::HEAD + Accepted::END;

    pub const COMPARE: usize = 6;

    pub const ANCESTRY: usize = 2;

    pub const NOTES: usize = Size::AUDIT + 2;

    pub const EXPORT: usize = Size::AUDIT + 1;

    pub const PLAN: usize = 4;
}

// Writes words over the first of a buffer.
fn put_words(words: &[u32], buffer: &mut [u32])
    requires { length words.now ≤ length buffer.old }
    ensures { buffer.new ≡ overwritten words.now buffer.old }
{
    buffer[..words.len()].copy_from_slice(words);
}

// Number, items, main items, ballots, and the weight, high word first.
#[tactic(auto, unfolding(crate::specs::Words::head_words))]
fn head_words(report: Report) -> [u32; Size::HEAD]
    ensures { result ≡ head_words (reported report) }
{
    match report {
        Ok(accepted) => [
            0,
            accepted.items,
            accepted.mains,
            accepted.ballots,
            (accepted.weight >> 32) as u32,
            (accepted.weight % 0x1_0000_0000) as u32,
        ],
        Err(refused) => [u32::from(refused.refusal), refused.items, 0, 0, 0, 0],
    }
}

// The end address; zeros where the board is refused.
fn end_words(report: Report) -> [u32; Accepted::END]
    ensures { result ≡ (reported report).end }
{
    match report {
        Ok(accepted) => accepted.end,
        Err(_) => [0; Accepted::END],
    }
}

// Writes the words of a report over the first of a buffer: those, and behind them the end address.
pub fn put_report(report: Report, buffer: &mut [u32])
    requires { audit_size ≤ length buffer.old }
    ensures { buffer.new ≡ overwritten (answer_words (reported report)) buffer.old }
{
    put_words(&head_words(report), buffer);
    put_words(&end_words(report), &mut buffer[Size::HEAD..]);
}

// The word of a board: 0 for the kept one, 1 for the later.
fn board_word(board: Board) -> u32
    ensures { result ≡ board_word (comparing.board_of board) }
{
    board as u32
}

// Kind, board, number, items, main number in the kept board, main number in the later one.
#[tactic(auto, unfolding(crate::specs::Words::comparison_words))]
fn comparison_words(comparison: Result<Agreement, RefusedBoard>) -> [u32; Size::COMPARE]
    ensures { result ≡ comparison_words (comparing.answer_of comparison) }
{
    match comparison {
        Err(r) => [
            0,
            board_word(r.board),
            u32::from(r.refused.refusal),
            r.refused.items,
            0,
            0,
        ],
        Ok(Agreement::Apart) => [1, 0, 0, 0, 0, 0],
        Ok(Agreement::Same) => [2, 0, 0, 0, 0, 0],
        Ok(Agreement::Collision { kept, later }) => [3, 0, 0, 0, kept, later],
    }
}

// Writes the words of a comparison over the first of a buffer.
pub fn put_comparison(comparison: Result<Agreement, RefusedBoard>, buffer: &mut [u32])
    requires { compare_size ≤ length buffer.old }
    ensures { buffer.new ≡ overwritten (comparison_words (comparing.answer_of comparison)) buffer.old }
{
    put_words(&comparison_words(comparison), buffer);
}

// Number and items; of acceptance, 0 and how many numbers were written.
#[tactic(auto, unfolding(crate::specs::Words::listing_words))]
fn listing_words(listing: Result<u32, Refused>) -> [u32; Size::ANCESTRY]
    ensures { result ≡ listing_words (listed.answer_of listing) }
{
    match listing {
        Ok(written) => [0, written],
        Err(refused) => [u32::from(refused.refusal), refused.items],
    }
}

// Writes the words of a listing over the first of a buffer.
pub fn put_listing(listing: Result<u32, Refused>, buffer: &mut [u32])
    requires { ancestry_size ≤ length buffer.old }
    ensures { buffer.new ≡ overwritten (listing_words (listed.answer_of listing)) buffer.old }
{
    put_words(&listing_words(listing), buffer);
}

// The word of what is wrong with a note.
fn way_word(disagreement: Disagreement) -> u32
    ensures { result ≡ way_word (way_of disagreement) }
{
    disagreement as u32
}

// What the notes say, and the number of the first that disagrees. There is no agreement where the notes or the board are refused.
#[tactic(auto, unfolding(crate::specs::Words::agreement_words))]
fn agreement_words(agreement: Option<Result<(), Disagrees>>) -> [u32; 2]
    ensures { result ≡ agreement_words (said agreement) }
{
    match agreement {
        None => [0, 0],
        Some(Ok(())) => [1, 0],
        Some(Err(first)) => [way_word(first.disagreement), first.note],
    }
}

// Writes the words of a report, and behind them what notes say, over the first of a buffer. As a call it would take a refusal by 23, which
// is given at once, half as long again.
#[inline(always)]
pub fn put_held(report: Report, agreement: Option<Result<(), Disagrees>>, buffer: &mut [u32])
    requires { notes_size ≤ length buffer.old }
    ensures { buffer.new ≡ overwritten (held_words (reported report) (said agreement)) buffer.old }
{
    put_report(report, buffer);
    put_words(&agreement_words(agreement), &mut buffer[Size::AUDIT..]);
}

// Writes the words of a report, and behind them the number of bytes that were written, over the first of a buffer.
pub fn put_exported(report: Report, bytes: u32, buffer: &mut [u32])
    requires { export_size ≤ length buffer.old }
    ensures { buffer.new ≡ overwritten (exported_words (reported report) bytes) buffer.old }
{
    put_report(report, buffer);
    put_words(&[bytes], &mut buffer[Size::AUDIT..]);
}

// Number, items, words of their index rows, and blocks of their addresses.
#[tactic(auto, unfolding(crate::specs::Words::plan_words))]
fn plan_words(plan: Result<Plan, Refused>) -> [u32; Size::PLAN]
    ensures { result ≡ plan_words (planned plan) }
{
    match plan {
        Ok(plan) => [0, plan.items, plan.index_words, plan.blocks],
        Err(refused) => [u32::from(refused.refusal), refused.items, 0, 0],
    }
}

// Writes the words of a plan over the first of a buffer.
pub fn put_plan(plan: Result<Plan, Refused>, buffer: &mut [u32])
    requires { plan_size ≤ length buffer.old }
    ensures { buffer.new ≡ overwritten (plan_words (planned plan)) buffer.old }
{
    put_words(&plan_words(plan), buffer);
}
