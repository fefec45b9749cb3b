// The sizes of the files: which the program refuses, and how many words it keeps.
ghost use Rattle.std.specs.Prelude.{◌≡◌};
ghost use Rattle.model.specs.Program.{size_fault};
ghost use Rattle.refusal.specs.Number.{found_of};

use refusal::Refusal;

// The bytes of the three files.
#[derive(Clone, Copy)]
pub struct Sizes {
    pub board: usize,
    pub verdicts: usize,
    pub roll: usize,
}

impl Sizes {
    // Bytes of a word.
    pub const WORD: usize = 4;

    // Words of a board that the program takes.
    pub const BOARD: usize = 16_384;

    // Verdict words that it keeps: those of 381 items, the most that such a board has, and one that shows that words are left over.
    pub const VERDICTS: usize = 3_430;

    // Roll words that it keeps: the most that a roll may have, and one that shows that there are more.
    pub const ROLL: usize = 4_097;

    // The refusal of the sizes: 4 where a file does not hold whole words, then 1 where the board has too many.
    pub fn finding(self) -> Result<(), Refusal>
        ensures { found_of result ≡ size_fault self.board self.verdicts self.roll }
    {
        if self.board % Sizes::WORD != 0
            || self.verdicts % Sizes::WORD != 0
            || self.roll % Sizes::WORD != 0
        {
            return Err(Refusal::Truncated);
        }
        if self.board / Sizes::WORD > Sizes::BOARD {
            return Err(Refusal::TooLarge);
        }
        Ok(())
    }
}
