// The format of a board, by its own words: its curve, and how many words its parts have. Paper: requests (v) and (ix).
ghost use Rattle.std.specs.Prelude.{◌≡◌};
ghost use Rattle.model.specs.Traits.{set_words, traits_known, traits_of};
ghost use Rattle.format.specs.Format.{widths_on, widths_of};

#[derive(Clone, Copy)]
pub struct Format {
    // One of the curves below.
    pub curve: u32,
    // The words of an address, a parent and a previous.
    pub address: usize,
    pub signature: usize,
    pub commitment: usize,
    // A power of 2, of which the last word of a commitment is a multiple: its low bits are zero.
    pub unit: u32,
    pub cryptogram: usize,
    // The words of a set of contests.
    pub sets: usize,
}

impl Format {
    // The curves, as bits 1 and 2 of the traits choose them.
    pub const SECP256R1: u32 = 0;

    pub const SECP384R1: u32 = 1;

    pub const SECP521R1: u32 = 2;

    // The words of the longest address.
    pub const LONGEST: usize = 16;

    // The words of a set where bit 0 of the traits is not set, and where it is.
    pub const NARROW: usize = 1;

    pub const WIDE: usize = 8;

    // The numbers that stand in one word of a set.
    pub const BITS: usize = 32;

    // The head of a genesis with a traits word, and the place of that word on a board that it opens.
    pub const TRAITS_HEAD: u32 = 0x1001_0012;

    pub const TRAITS_PLACE: usize = 18;

    // The format of a board.
    pub fn of(board: &[u32]) -> Self
        ensures { result ≡ widths_of board.now }
    {
        let traits = traits_of(board);
        let sets = sets_of(traits);
        on_curve((traits >> 1) % 4, sets)
    }
}

// The table of the curves, secp256r1 last, with sets of so many words.
fn on_curve(curve: u32, sets: usize) -> Format
    ensures { result ≡ widths_on curve sets }
{
    match curve {
        Format::SECP384R1 => Format {
            curve,
            address: 12,
            signature: 24,
            commitment: 13,
            unit: 1 << 24,
            cryptogram: 25,
            sets,
        },
        Format::SECP521R1 => Format {
            curve,
            address: 16,
            signature: 33,
            commitment: 17,
            unit: 1 << 8,
            cryptogram: 34,
            sets,
        },
        _ => Format {
            curve,
            address: 8,
            signature: 16,
            commitment: 9,
            unit: 1 << 24,
            cryptogram: 17,
            sets,
        },
    }
}

// The words of a set of contests.
fn sets_of(traits: u32) -> usize
    ensures { result ≡ set_words traits }
{
    if traits % 2 == 1 {
        return Format::WIDE;
    }
    Format::NARROW
}

// Whether no other bit of the traits is set than the known ones, and the number of the curve is that of one: 0 to 5.
pub fn is_known(traits: u32) -> bool
    ensures { result ≡ traits_known traits }
{
    traits < 6
}

// The traits in force on a board: 0 where it has no traits word, or one that is not known.
fn traits_of(board: &[u32]) -> u32
    ensures { result ≡ traits_of board.now }
{
    if board.len() <= Format::TRAITS_PLACE {
        return 0;
    }
    if board[0] != Format::TRAITS_HEAD {
        return 0;
    }
    let traits = board[Format::TRAITS_PLACE];
    if is_known(traits) {
        return traits;
    }
    0
}
