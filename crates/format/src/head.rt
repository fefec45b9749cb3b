// A head word: its kind, its type code and its count of content words.
ghost use Rattle.std.specs.Prelude.{◌≡◌};
ghost use Rattle.model.specs.Words.{between};
ghost use Rattle.format.specs.Layout.{head_of};

#[derive(Clone, Copy)]
pub struct Head {
    pub kind: u32,
    pub code: u32,
    pub count: usize,
}

impl Head {
    // Kinds.
    pub const MAIN: u32 = 1;

    pub const HIDDEN: u32 = 2;

    pub const VERDICT: u32 = 3;

    pub const CLOSING: u32 = 15;

    // Type codes.
    pub const GENESIS: u32 = 1;

    pub const TEXT: u32 = 2;

    pub const CONTEST: u32 = 3;

    pub const THRESHOLD: u32 = 4;

    pub const AUTHORIZER: u32 = 5;

    pub const ROUND: u32 = 6;

    pub const SESSION: u32 = 16;

    pub const VOTER_COMMITMENT: u32 = 17;

    pub const SERVER_COMMITMENT: u32 = 18;

    pub const BALLOT: u32 = 19;

    pub const CAST: u32 = 20;

    pub const SPOIL: u32 = 21;

    pub const INTENT: u32 = 32;

    pub const EXTRACTION: u32 = 33;

    pub const CONFIRMATION: u32 = 34;

    pub const TRACK: u32 = 48;

    pub const VERIFIER: u32 = 49;

    pub const VOTER_OPENING: u32 = 50;

    pub const SERVER_OPENING: u32 = 51;

    // A head word, taken apart.
    pub fn of(word: u32) -> Self
        ensures { result ≡ head_of word }
    {
        Self {
            kind: word >> 28,
            code: (word >> 16) % 4096,
            count: (word % 65536) as usize,
        }
    }
}

// Whether a type code is in a range, both ends counted.
pub fn is_between(low: u32, high: u32, code: u32) -> bool
    ensures { result ≡ between low high code }
{
    low <= code && code <= high
}
