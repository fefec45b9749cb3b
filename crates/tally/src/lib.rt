// The counted ballots: their rows in the ballot table, kept as the items pass, and what is made of them.
#![tactic(auto)]

ghost use Rattle.std.specs.Prelude.{◌≡◌, List, ◌+◌, ◌*◌, ◌≤◌, length, T};
ghost use Rattle.model.specs.History.{entry, main, main_number};
ghost use Rattle.model.specs.Counted.{Vote, counted, contents, total_weight};
ghost use Rattle.model.specs.Audit.{ballot_row, item_limit};
ghost use Rattle.sha256_block.specs.Fips.{sha256_words};
ghost use Rattle.index.specs.Kept.{before};
ghost use Rattle.index.specs.Passed.{history_of};
ghost use Rattle.state.specs.Reached.{history_behind};
ghost use Rattle.tally.specs.Rows.{HoldsRows};
ghost use Rattle.tally.specs.Tallied.{Tallied};

use format::head::Head;
use index::addition::Addition;
use index::passed::Passed;
use sha256::Hash;
use state::progress::Progress;

pub mod rows;

// The main number of item k, which is a main item: one more than the main items before it.
fn main_number(passed: &Passed, k: usize) -> u32
    requires { (1 ≤ k) × (k ≤ passed.now.count) × T (main (entry (history_of passed.now) k)) }
    ensures { result ≡ main_number (history_of passed.now) k }
{
    (passed.mains_before(k) + 1) as u32
}

// The ballot table with one item more, where it has so many rows. A cast drops its voter's row and puts its own last: the main number of
// the ballot, and the voter and the weight of the cast's session. Returns how many rows there are then.
pub fn after(addition: &Addition, ballots: &mut [u32], rows: usize) -> usize
    requires rows { rows ≡ length (counted (before addition.now.board.now addition.now.count)) }
    requires tallied { Tallied addition.now.board.now ballots.old addition.now.count }
    ensures { (Tallied addition.now.board.now ballots.new (addition.now.count + 1))
        × (result ≡ length (counted (before addition.now.board.now (addition.now.count + 1)))) }
{
    let known = addition.known;
    if known.item.head.code != Head::CAST {
        return rows;
    }
    let passed = Passed {
        board: addition.board,
        index: addition.index,
        count: addition.count,
    };
    let session = passed.entry(known.session).item;
    let content = words::part(addition.board, session.content, session.head.count);
    let voter = content[0];
    let weight = content[1];
    let ballot = main_number(&passed, known.parent);
    let kept = rows::without_voter(ballots, rows, voter);
    rows::put_row(ballots, kept, [ballot, voter, weight]);
    kept + 1
}

// The fingerprint of the counted ballots: SHA-256 over their whole contents in the order of the rows, each a piece of the board that is
// fed as it stands there.
pub fn fingerprint(progress: &Progress, ballots: &[u32]) -> [u32; 8]
    requires { Tallied progress.now.board.now ballots.now progress.now.state.items }
    ensures { result ≡ sha256_words (contents (counted (history_behind progress.now))) }
{
    let passed = progress.passed();
    let mut hash = Hash::new();
    for row in rows::held(ballots, progress.state.ballots) {
        let ballot = lookup::main_entry(&passed, row[0] as usize);
        let item = progress.entry(ballot).item;
        hash = hash.words(words::part(progress.board, item.content, item.head.count));
    }
    hash.finish()
}

// The total weight of the rows.
pub fn total_weight(ballots: &[u32], rows: usize) -> u64
    requires { (ballot_row * rows ≤ length ballots.now) × (rows ≤ item_limit) }
    ensures { (xs : List Vote) → HoldsRows ballots.now rows xs → result ≡ total_weight xs }
{
    rows::held(ballots, rows)
        .iter()
        .map(|row| u64::from(row[2]))
        .sum()
}
