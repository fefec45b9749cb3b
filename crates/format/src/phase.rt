// The phase to which items of a type belong. Paper: "Item types", "Phases".
ghost use Rattle.std.specs.Prelude.{◌≡◌};
ghost use Rattle.format.specs.Phase.{phase_of};

use crate::head;
use crate::head::Head;

// The phases. Items of hidden tracks have one of their own.
#[derive(Clone, Copy, PartialEq, Eq)]
pub enum Phase {
    Config,
    Voting,
    Extraction,
    Track,
}

impl Phase {
    pub const CONFIG: Phase = Phase::Config;

    pub const VOTING: Phase = Phase::Voting;

    pub const EXTRACTION: Phase = Phase::Extraction;

    pub const TRACK: Phase = Phase::Track;

    // The phase of a type, if it is in one.
    pub fn of(code: u32) -> Option<Self>
        ensures { result ≡ phase_of code }
    {
        if head::is_between(Head::GENESIS, Head::ROUND, code) {
            return Some(Phase::CONFIG);
        }
        if head::is_between(Head::SESSION, Head::SPOIL, code) {
            return Some(Phase::VOTING);
        }
        if head::is_between(Head::INTENT, Head::CONFIRMATION, code) {
            return Some(Phase::EXTRACTION);
        }
        if head::is_between(Head::TRACK, Head::SERVER_OPENING, code) {
            return Some(Phase::TRACK);
        }
        None
    }
}
