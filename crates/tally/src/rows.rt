// The rows of the ballot table, three words each: the main number of the ballot, the voter and the weight. What is free is zero.
ghost use Rattle.std.specs.Prelude.{◌≡◌, List, [], ◌∷◌, ◌+◌, ◌*◌, ◌≤◌, length, map};
ghost use Rattle.std.proofs.lemmas.List.Edits.{sets};
ghost use Rattle.model.specs.Counted.{Vote, without};
ghost use Rattle.model.specs.Audit.{ballot_row};
ghost use Rattle.tally.specs.Rows.{HoldsRows, row_words, row_kept, number_kept};

use format::limit::Limit;

// The first rows.
pub(crate) fn held(ballots: &[u32], count: usize) -> &[[u32; 3]]
    requires { ballot_row * count ≤ length ballots.now }
    ensures len { length result.now ≡ count }
    ensures votes { (xs : List Vote) → HoldsRows ballots.now count xs → result.now ≡ map row_words xs }
{
    let (rows, _) = ballots[..Limit::BALLOT_ROW * count].as_chunks::<3>();
    rows
}

// Writes a row behind the first ones.
pub fn put_row(ballots: &mut [u32], rows: usize, row: [u32; 3])
    requires { ballot_row * rows + ballot_row ≤ length ballots.old }
    ensures { ballots.new ≡ sets ballots.old (ballot_row * rows) row }
{
    words::put(&row, ballots, Limit::BALLOT_ROW * rows);
}

// Moves row k up behind the first `kept` rows, unless it is the voter's, and clears the words that are freed. Returns how many rows are
// kept then.
fn keep_row(ballots: &mut [u32], kept: usize, k: usize, voter: u32) -> usize
    requires { (kept ≤ k) × (ballot_row * k + ballot_row ≤ length ballots.old) }
    ensures ballots { ballots.new ≡ row_kept ballots.old kept k voter }
    ensures number { result ≡ number_kept ballots.old kept k voter }
{
    let at = Limit::BALLOT_ROW * k;
    let row = [ballots[at], ballots[at + 1], ballots[at + 2]];
    put_row(ballots, k, [0; 3]);
    if row[1] == voter {
        return kept;
    }
    put_row(ballots, kept, row);
    kept + 1
}

// Drops the voter's rows, and moves later ones up. Returns how many rows are left.
pub fn without_voter(ballots: &mut [u32], rows: usize, voter: u32) -> usize
    requires { ballot_row * rows ≤ length ballots.old }
    ensures { (xs : List Vote) → HoldsRows ballots.old rows xs
        → HoldsRows ballots.new result (without voter xs) }
{
    let mut kept = 0;
    for k in 0..rows {
        kept = keep_row(ballots, kept, k, voter);
    }
    kept
}
