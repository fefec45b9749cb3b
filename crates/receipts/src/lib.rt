// Receipts, answered from a board that was accepted: for each the main number of its cast. One pass over the board answers all: each cast
// is held against the receipts in the bucket of its address.
#![tactic(auto)]

ghost use Rattle.std.specs.Prelude.{◌≡◌, ◌+◌, ◌≤◌, ◌<◌, length, replicate};
ghost use Rattle.model.specs.Codes.{cast_type};
ghost use Rattle.model.specs.Audit.{accepted};
ghost use Rattle.model.specs.Report.{no_number, filled};
ghost use Rattle.model.specs.Receipts.{receipt_size, receipt_count, receipt_at, matches, is_bad_receipts, answers_after};
ghost use Rattle.format.specs.Format.{format_of};
ghost use Rattle.index.specs.Known.{IsKnown};
ghost use Rattle.index.specs.Passed.{history_of};
ghost use Rattle.chains.specs.Chain.{chain_words};
ghost use Rattle.lookup.specs.Search.{entry_from};
ghost use Rattle.receipts.specs.Answering.{Whole, Answerable, receipt_chain, answers_up_to, with_cast};

use chains::Chain;
use format::format::Format;
use format::head::Head;
use index::Known;
use index::passed::Passed;
use lookup::bucket;

pub struct Receipt {}

impl Receipt {
    // The most receipts that are answered at once.
    pub const LIMIT: usize = 512;

    // The answer to a receipt that has no cast. Kept: a word of the caller's buffer, as the C interface has it.
    const NONE: u32 = 4_294_967_295;
}

// The words of a receipt: a signature and an address, of the board's widths.
fn size(board: &[u32]) -> usize
    ensures { result ≡ receipt_size (format_of board.now) }
{
    let f = Format::of(board);
    f.signature + f.address
}

// How many receipts there are.
pub fn count(board: &[u32], receipts: &[u32]) -> usize
    ensures { result ≡ receipt_count (format_of board.now) receipts.now }
{
    receipts.len() / size(board)
}

// Whether they are not whole receipts, or too many.
pub fn is_bad(board: &[u32], receipts: &[u32]) -> bool
    ensures { result ≡ is_bad_receipts (format_of board.now) receipts.now }
{
    words::is_bad_run(receipts, size(board), Receipt::LIMIT)
}

// Receipts that are asked of the items that passed: whole receipts of the board's widths, not too many.
#[derive(Clone, Copy)]
struct Asked<'a> {
    passed: Passed<'a>,
    receipts: &'a [u32],
    ghost whole: { Whole passed.board.now receipts.now },
}

// With the chain table that finds the receipts of an address.
#[derive(Clone, Copy)]
struct Linked<'a> {
    asked: Asked<'a>,
    chain: &'a [u32],
    ghost chained: { chain.now ≡ receipt_chain asked.passed.board.now asked.receipts.now },
}

// Puts every receipt into the bucket of its address.
fn link(asked: &Asked, chain: &mut [u32])
    requires { chain.old ≡ replicate chain_words 0 }
    ensures { chain.new ≡ receipt_chain asked.now.passed.board.now asked.now.receipts.now }
{
    let size = size(asked.passed.board);
    let signature = Format::of(asked.passed.board).signature;
    // Kept: by places. Over `chunks_exact(size).enumerate()` it is not proved that the count of the chunks fits (`loop-k-init-derived`).
    for k in 0..count(asked.passed.board, asked.receipts) {
        let at = size * k + signature;
        chains::put(chain, bucket::of_address(asked.receipts[at]), k + 1);
    }
}

// The answers before any item: none for each receipt, then zeros.
fn start(answers: &mut [u32], total: usize)
    requires { total ≤ length answers.old }
    ensures { answers.new ≡ filled (length answers.old) (replicate total no_number) }
{
    words::clear(answers);
    answers[..total].fill(Receipt::NONE);
}

// Whether an item has the signature and the address of receipt k, from 0 on: they are its last words, in the order of a receipt's.
fn is_receipt(asked: &Asked, e: Known, k: usize) -> bool
    requires known { IsKnown asked.now.passed.board.now (entry_from asked.now.passed.board.now e) e }
    requires k_bound { k < receipt_count (format_of asked.now.passed.board.now) asked.now.receipts.now }
    ensures { result ≡ matches (receipt_at (format_of asked.now.passed.board.now) asked.now.receipts.now k)
        (entry_from asked.now.passed.board.now e).item }
{
    let size = e.item.end - e.item.signature;
    words::same_words(
        words::part(asked.passed.board, e.item.signature, size),
        words::part(asked.receipts, size * k, size),
    )
}

// Gives a cast's main number to each of its receipts that has no answer yet. They are in the bucket of its address.
fn answer_cast(linked: &Linked, e: Known, number: u32, answers: &mut [u32])
    requires known { (IsKnown linked.now.asked.passed.board.now (entry_from linked.now.asked.passed.board.now e) e)
        × (e.item.head.code ≡ cast_type) }
    requires room { receipt_count (format_of linked.now.asked.passed.board.now) linked.now.asked.receipts.now ≤ length answers.old }
    ensures { answers.new
        ≡ with_cast linked.now.asked.passed.board.now linked.now.asked.receipts.now (entry_from linked.now.asked.passed.board.now e)
        number answers.old }
{
    let board = linked.asked.passed.board;
    let mut k = chains::last(linked.chain, bucket::of_address(board[e.item.address]));
    while k != 0 {
        if answers[k - 1] == Receipt::NONE && is_receipt(&linked.asked, e, k - 1) {
            answers[k - 1] = number;
        }
        k = chains::behind(linked.chain, k);
    }
}

// The item after the first done: the answers so far, those of a search for each receipt alone in the first done items, become those of a
// search in one item more.
fn step(linked: &Linked, done: usize, answers: &mut [u32])
    requires done_in { done < linked.now.asked.passed.count }
    requires room { receipt_count (format_of linked.now.asked.passed.board.now) linked.now.asked.receipts.now ≤ length answers.old }
    requires answers_value { answers.old
        ≡ answers_up_to linked.now.asked.passed.board.now linked.now.asked.receipts.now done (length answers.old) }
    ensures { answers.new
        ≡ answers_up_to linked.now.asked.passed.board.now linked.now.asked.receipts.now (done + 1) (length answers.old) }
{
    let passed = linked.asked.passed;
    let k = done + 1;
    let e = passed.entry(k);
    if e.item.head.code != Head::CAST {
        return;
    }
    let number = passed.mains_before(k) + 1;
    answer_cast(linked, e, number as u32, answers);
}

// Answers every receipt from a board that was accepted, in one pass over its items: the main number of the first cast with its address and
// signature, or none; then zeros.
pub fn answer_accepted(passed: &Passed, receipts: &[u32], answers: &mut [u32])
    requires { Answerable passed.now.board.now receipts.now answers.old }
    ensures { answers.new ≡ answers_after (format_of passed.now.board.now) receipts.now
        (accepted (history_of passed.now)) answers.old }
{
    let asked = Asked {
        passed: *passed,
        receipts,
    };
    let mut chain = [0; Chain::WORDS];
    link(&asked, &mut chain);
    let linked = Linked {
        asked,
        chain: &chain,
    };
    start(answers, count(passed.board, receipts));
    for done in 0..passed.count {
        step(&linked, done, answers);
    }
}
