// The refusals, by what is wrong. Each comment gives the paper's number and word.
#![tactic(auto)]

ghost use Rattle.std.specs.Prelude.{◌≡◌, ◌≤◌};
ghost use Rattle.model.specs.Audit.{item_limit};
ghost use Rattle.refusal.specs.Number.{number_of};

#[derive(Clone, Copy, PartialEq, Eq)]
pub enum Refusal {
    // 1 oversize
    TooLarge = 1,
    // 2 short sheet
    ShortTable = 2,
    // 3 blank
    EmptyBoard = 3,
    // 4 torn
    Truncated = 4,
    // 5 stranger
    UnknownType = 5,
    // 6 misfit
    WrongCount = 6,
    // 7 false address
    WrongAddress = 7,
    // 8 broken history
    WrongPrevious = 8,
    // 9 orphan
    WrongParent = 9,
    // 10 backward clock
    EarlierTime = 10,
    // 11 out of phase
    OutOfPhase = 11,
    // 12 second
    Duplicate = 12,
    // 13 bad content
    BadContent = 13,
    // 14 no verdict
    NoVerdict = 14,
    // 15 wrong key
    WrongKey = 15,
    // 16 bad signature
    BadSignature = 16,
    // 17 is unused: list full, which can't come up
    // 18 bad close
    BadClosing = 18,
    // 19 no such point
    NoSuchItem = 19,
    // 20 bad roll
    BadRoll = 20,
    // 21 not on the roll
    NotOnRoll = 21,
    // 22 bad tray
    BadReceipts = 22,
    // 23 bad notes
    BadNotes = 23,
}

// A refusal, and the items passed so far.
#[derive(Clone, Copy)]
pub struct Refused {
    pub refusal: Refusal,
    pub items: u32,
}

impl Refused {
    // A refusal after so many items.
    pub fn after(refusal: Refusal, items: usize) -> Refused
        requires { items ≤ item_limit }
        ensures { result ≡ record { refusal = refusal; items = items } }
    {
        Refused {
            refusal,
            items: items as u32,
        }
    }
}

// The paper's number of a refusal.
impl From<Refusal> for u32 {
    ghost from_gives = { λ refusal n. n ≡ number_of refusal };

    fn from(refusal: Refusal) -> u32 {
        refusal as u32
    }
}
