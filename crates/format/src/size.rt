// Sizes in words of what an item's content is made of, and of whole contents. Paper: "Item types".
use crate::item::Item;

pub struct Size {}

impl Size {
    // A key fingerprint (the paper's key mark).
    pub const KEY: usize = 8;

    // The fingerprint of the counted ballots, and that of a session.
    pub const FINGERPRINT: usize = 8;

    // What a trustee confirms.
    pub const SHARE: usize = 16;

    // The election number and two keys, and these with a traits word.
    pub const GENESIS: usize = 1 + Size::KEY + Size::KEY;

    pub const GENESIS_TRAITS: usize = Size::GENESIS + 1;

    // Trustees, threshold and a key.
    pub const THRESHOLD: usize = 2 + Size::KEY;

    // The mode and a key.
    pub const AUTHORIZER: usize = 1 + Size::KEY;

    // Number, start and end; beside them a set of contests.
    pub const ROUND: usize = 1 + Item::TIME + Item::TIME;

    // Voter, weight, a key and a fingerprint; behind them a set of contests.
    pub const SESSION: usize = 2 + Size::KEY + Size::FINGERPRINT;

    // The longest election text.
    pub const TEXT: usize = 64;

    // A contest's number and its longest text: 1..65.
    pub const CONTEST: usize = 1 + Size::TEXT;

    // The longest opening.
    pub const OPENING: usize = 256;
}
