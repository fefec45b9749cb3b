// The auditing program but for reading and writing: from the bytes of the three files to the bytes that it prints.
#![tactic(auto)]

ghost use Rattle.std.specs.Prelude.{◌≡◌, List, ℕ, ◌+◌, ◌*◌, ◌≤◌, length};
ghost use Rattle.model.specs.Program.{from_bytes, printed};
ghost use Rattle.format.specs.Format.{format_of};
ghost use Rattle.text.specs.Put.{Shown};
ghost use Rattle.program.specs.Read.{Read};
ghost use Rattle.program.specs.Texts.{audit_text, files_text};

use audit::Submission;
use format::limit::Limit;
use refusal::Refused;
use text::line::LINE;
use text::size::Sizes;

// Bytes that are kept of a file: as many as the words that matter have.
pub const BOARD: usize = Sizes::WORD * Sizes::BOARD;

pub const VERDICTS: usize = Sizes::WORD * Sizes::VERDICTS;

pub const ROLL: usize = Sizes::WORD * Sizes::ROLL;

// Room for any text: a line for the board, and a line for each row that the ballot table has room for.
pub const TEXT: usize = LINE * (1 + Limit::COUNTED);

// The text of the audit of a board, with tables of its own.
fn audit_text(out: &mut [u8], submission: &Submission) -> usize
    requires { TEXT ≤ length out.old }
    ensures { Shown out.old
        (audit_text submission.now.board.now submission.now.verdicts.now submission.now.roll.now)
        out.new result }
{
    let mut index = [0u32; Limit::INDEX];
    let mut ballots = [0u32; Limit::BALLOTS];
    let report = audit::audit(submission, &mut index, &mut ballots);
    text::text_of(out, &report, &ballots)
}

// The text for the words of three files of whole words, from their bytes.
fn words_text(out: &mut [u8], board: &[u8], verdicts: &[u8], roll: &[u8]) -> usize
    requires room { TEXT ≤ length out.old }
    requires board { length board.now ≤ BOARD }
    requires verdicts { length verdicts.now ≤ VERDICTS }
    requires roll { length roll.now ≤ ROLL }
    ensures { Shown out.old
        (audit_text (from_bytes board.now) (from_bytes verdicts.now) (from_bytes roll.now))
        out.new result }
{
    let mut board_words = [0u32; Sizes::BOARD];
    words::words_of(board, &mut board_words);
    let mut verdict_words = [0u32; Sizes::VERDICTS];
    words::words_of(verdicts, &mut verdict_words);
    let mut roll_words = [0u32; Sizes::ROLL];
    words::words_of(roll, &mut roll_words);
    let submission = Submission {
        board: &board_words[..board.len() / Sizes::WORD],
        verdicts: &verdict_words[..verdicts.len() / Sizes::WORD],
        roll: &roll_words[..roll.len() / Sizes::WORD],
    };
    audit_text(out, &submission)
}

// The text for three files: their sizes, and the bytes that are kept of them.
fn files_text(out: &mut [u8], sizes: Sizes, board: &[u8], verdicts: &[u8], roll: &[u8]) -> usize
    requires room { TEXT ≤ length out.old }
    requires board { length board.now ≤ BOARD }
    requires verdicts { length verdicts.now ≤ VERDICTS }
    requires roll { length roll.now ≤ ROLL }
    ensures { Shown out.old
        (files_text sizes board.now verdicts.now roll.now)
        out.new result }
{
    match sizes.finding() {
        Err(refusal) => text::text_of(out, &Err(Refused { refusal, items: 0 }), &[]),
        Ok(()) => words_text(out, board, verdicts, roll),
    }
}

// The text for three files of these sizes, whose first bytes stand in the buffers.
pub fn answer(out: &mut [u8], sizes: Sizes, board: &[u8], verdicts: &[u8], roll: &[u8]) -> usize
    requires room { TEXT ≤ length out.old }
    requires board { length board.now ≡ BOARD }
    requires verdicts { length verdicts.now ≡ VERDICTS }
    requires roll { length roll.now ≡ ROLL }
    ensures within { result ≤ length out.new }
    ensures text { (b v w : List ℕ)
        → Read board.now sizes.board b
        → Read verdicts.now sizes.verdicts v
        → Read roll.now sizes.roll w
        → Shown out.old (printed (format_of (from_bytes b)) b v w) out.new result }
{
    // a buffer holds no more of a file than it has room for
    files_text(
        out,
        sizes,
        &board[..sizes.board.min(board.len())],
        &verdicts[..sizes.verdicts.min(verdicts.len())],
        &roll[..sizes.roll.min(roll.len())],
    )
}
