// What an audit answers.
#![tactic(auto)]

ghost use Rattle.std.specs.Prelude.{◌≡◌, List, ℕ, ◌≤◌};
ghost use Rattle.model.specs.Audit as model;
ghost use Rattle.model.specs.Audit.{item_limit};
ghost use Rattle.model.specs.Report.{report_of};
ghost use Rattle.format.specs.Format.{format_of};
ghost use Rattle.refusal.specs.Number.{number_of};
ghost use Rattle.report.specs.Reported.{reported};

use format::format::Format;
use refusal::{Refusal, Refused};

// Acceptance: items, main items, counted ballots and their total weight; and the end address, that of the last main item, of 8, 12 or 16
// words, and zeros behind it.
#[derive(Clone, Copy)]
pub struct Accepted {
    pub items: u32,
    pub mains: u32,
    pub ballots: u32,
    pub weight: u64,
    pub end: [u32; 16],
}

impl Accepted {
    // Words of the end address: as many as the longest address has.
    pub const END: usize = Format::LONGEST;
}

// The answer: acceptance, or what is wrong and the items passed so far.
pub type Report = Result<Accepted, Refused>;

// A refusal after so many items.
pub fn refused(refusal: Refusal, items: usize) -> Report
    requires { items ≤ item_limit }
    ensures { (board : List ℕ) → reported result ≡ report_of (format_of board) (model.refused (number_of refusal) items) }
{
    Err(Refused::after(refusal, items))
}
