// The limits of the paper, "Refusals and their order", and of requests (i), (vii) and (viii): how much a board and a roll may have, and how
// much a table must have room for.
ghost use Rattle.std.specs.Prelude.{◌≡◌};
ghost use Rattle.format.specs.Limit.{limits};

#[derive(Clone, Copy)]
pub struct Limit {
    pub words: usize,
    pub items: usize,
    pub counted: usize,
    pub index: usize,
    pub ballots: usize,
    pub roll: usize,
}

impl Limit {
    // Words of a board.
    pub const WORDS: usize = 262_144;

    // Items of a board.
    pub const ITEMS: usize = 2_048;

    // Counted ballots of a board, at most: each needs five items of its own, and five must precede the first session.
    pub const COUNTED: usize = 408;

    // Words of a row of the index table, and of the ballot table.
    pub const INDEX_ROW: usize = 5;

    pub const BALLOT_ROW: usize = 3;

    // Words that the index table needs, and the ballot table.
    pub const INDEX: usize = Limit::INDEX_ROW * Limit::ITEMS;

    pub const BALLOTS: usize = Limit::BALLOT_ROW * Limit::COUNTED;

    // Words of a pair of a roll, and pairs of a roll.
    pub const ROLL_ROW: usize = 2;

    pub const ROLL: usize = 2_048;

    // The limits together.
    pub fn all() -> Self
        ensures { result ≡ limits }
    {
        Limit {
            words: Limit::WORDS,
            items: Limit::ITEMS,
            counted: Limit::COUNTED,
            index: Limit::INDEX,
            ballots: Limit::BALLOTS,
            roll: Limit::ROLL,
        }
    }
}
