// The table of item types.
ghost use Rattle.std.specs.Prelude.{◌≡◌};
ghost use Rattle.model.specs.Words.{main_kind, hidden_kind};
ghost use Rattle.model.specs.Format as model;
ghost use Rattle.model.specs.Types.{set_and_each, row_in, table, fits};
ghost use Rattle.format.specs.Format.{format_of};
ghost use Rattle.format.specs.Table.{row_of, counts_of};

use crate::format::Format;
use crate::head::Head;
use crate::size::Size;

// Who writes items of a type: E administrator, D ballot box, A authorizer, V voter, X verifier.
#[derive(Clone, Copy)]
pub enum Writer {
    Administrator,
    BallotBox,
    Authorizer,
    Voter,
    Verifier,
}

// What the parent must be: zeros, the latest config item, or an item of a type.
#[derive(Clone, Copy)]
pub enum ParentRule {
    Zeros,
    LatestConfig,
    OfType(u32),
}

// The counts of content words: from one number to another, or the words of a set and k times a size, k from 1 to what the set can hold.
#[derive(Clone, Copy)]
pub enum Counts {
    FromTo(usize, usize),
    SetAndEach(usize, usize),
}

#[derive(Clone, Copy)]
pub struct Row {
    pub writer: Writer,
    pub parent: ParentRule,
    pub counts: Counts,
}

impl Counts {
    // Whether so many content words are in the table.
    pub fn fits(self, n: usize) -> bool
        ensures { result ≡ fits (counts_of self) n }
    {
        let counts = self;
        match counts {
            Counts::FromTo(low, high) => low <= n && n <= high,
            Counts::SetAndEach(words, size) => set_and_each(words, size, n),
        }
    }
}

// Whether n is the words of a set and k times a size, k from 1 to what the set can hold: number k - 1 stands in one of its words.
// No sum and no product is made, so any words and any size will do.
fn set_and_each(words: usize, size: usize, n: usize) -> bool
    ensures { result ≡ fits (set_and_each words size) n }
{
    if n < words {
        return false;
    }
    let rest = n - words;
    if rest < size {
        return false;
    }
    if size == 0 {
        return rest == 0;
    }
    let k = rest / size;
    rest % size == 0 && (k - 1) / Format::BITS < words
}

// The row of a type on a board, where it is listed under its kind.
pub fn row_of(board: &[u32], kind: u32, code: u32) -> Option<Row>
    ensures { row_of kind code result ≡ row_in kind code (table (format_of board.now)) }
{
    if kind == Head::MAIN {
        return main_row(board, code);
    }
    if kind == Head::HIDDEN {
        return hidden_row(code);
    }
    None
}

// The rows of the main items.
fn main_row(board: &[u32], code: u32) -> Option<Row>
    ensures { row_of main_kind code result ≡ row_in main_kind code (table (format_of board.now)) }
{
    let format = Format::of(board);
    let round = Size::ROUND + format.sets;
    let session = Size::SESSION + format.sets;
    match code {
        Head::GENESIS => Some(Row {
            writer: Writer::Administrator,
            parent: ParentRule::Zeros,
            counts: Counts::FromTo(Size::GENESIS, Size::GENESIS_TRAITS),
        }),
        Head::TEXT => Some(Row {
            writer: Writer::Administrator,
            parent: ParentRule::LatestConfig,
            counts: Counts::FromTo(0, Size::TEXT),
        }),
        Head::CONTEST => Some(Row {
            writer: Writer::Administrator,
            parent: ParentRule::LatestConfig,
            counts: Counts::FromTo(1, Size::CONTEST),
        }),
        Head::THRESHOLD => Some(Row {
            writer: Writer::Administrator,
            parent: ParentRule::LatestConfig,
            counts: Counts::FromTo(Size::THRESHOLD, Size::THRESHOLD),
        }),
        Head::AUTHORIZER => Some(Row {
            writer: Writer::Administrator,
            parent: ParentRule::LatestConfig,
            counts: Counts::FromTo(Size::AUTHORIZER, Size::AUTHORIZER),
        }),
        Head::ROUND => Some(Row {
            writer: Writer::Administrator,
            parent: ParentRule::LatestConfig,
            counts: Counts::FromTo(round, round),
        }),
        Head::SESSION => Some(Row {
            writer: Writer::Authorizer,
            parent: ParentRule::LatestConfig,
            counts: Counts::FromTo(session, session),
        }),
        Head::VOTER_COMMITMENT => Some(Row {
            writer: Writer::Voter,
            parent: ParentRule::OfType(Head::SESSION),
            counts: Counts::FromTo(format.commitment, format.commitment),
        }),
        Head::SERVER_COMMITMENT => Some(Row {
            writer: Writer::BallotBox,
            parent: ParentRule::OfType(Head::VOTER_COMMITMENT),
            counts: Counts::FromTo(format.commitment, format.commitment),
        }),
        Head::BALLOT => Some(Row {
            writer: Writer::Voter,
            parent: ParentRule::OfType(Head::SERVER_COMMITMENT),
            counts: Counts::SetAndEach(format.sets, format.cryptogram),
        }),
        Head::CAST => Some(Row {
            writer: Writer::Voter,
            parent: ParentRule::OfType(Head::BALLOT),
            counts: Counts::FromTo(0, 0),
        }),
        Head::SPOIL => Some(Row {
            writer: Writer::Voter,
            parent: ParentRule::OfType(Head::BALLOT),
            counts: Counts::FromTo(0, 0),
        }),
        Head::INTENT => Some(Row {
            writer: Writer::Administrator,
            parent: ParentRule::LatestConfig,
            counts: Counts::FromTo(0, 0),
        }),
        Head::EXTRACTION => Some(Row {
            writer: Writer::BallotBox,
            parent: ParentRule::OfType(Head::INTENT),
            counts: Counts::FromTo(Size::FINGERPRINT, Size::FINGERPRINT),
        }),
        Head::CONFIRMATION => Some(Row {
            writer: Writer::Administrator,
            parent: ParentRule::OfType(Head::EXTRACTION),
            counts: Counts::SetAndEach(Format::NARROW, Size::SHARE),
        }),
        _ => None,
    }
}

// The rows of the items of hidden tracks.
fn hidden_row(code: u32) -> Option<Row>
    ensures { (f : model.Format) → row_of hidden_kind code result ≡ row_in hidden_kind code (table f) }
{
    match code {
        Head::TRACK => Some(Row {
            writer: Writer::BallotBox,
            parent: ParentRule::OfType(Head::BALLOT),
            counts: Counts::FromTo(0, 0),
        }),
        Head::VERIFIER => Some(Row {
            writer: Writer::Verifier,
            parent: ParentRule::OfType(Head::TRACK),
            counts: Counts::FromTo(Size::KEY, Size::KEY),
        }),
        Head::VOTER_OPENING => Some(Row {
            writer: Writer::Voter,
            parent: ParentRule::OfType(Head::VERIFIER),
            counts: Counts::FromTo(1, Size::OPENING),
        }),
        Head::SERVER_OPENING => Some(Row {
            writer: Writer::BallotBox,
            parent: ParentRule::OfType(Head::VOTER_OPENING),
            counts: Counts::FromTo(1, Size::OPENING),
        }),
        _ => None,
    }
}
