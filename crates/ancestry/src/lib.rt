// The ancestry of an item of a board that was accepted: its number, its parent's, and so on up to genesis, in a list that the caller lends.
#![tactic(auto)]

ghost use Rattle.std.specs.Prelude.{◌≡◌, ◌≤◌, length, replicate};
ghost use Rattle.model.specs.Audit.{accepted};
ghost use Rattle.model.specs.Ancestry.{list_need, ancestry_answer, list_after};
ghost use Rattle.index.specs.Passed.{history_of};
ghost use Rattle.ancestry.specs.Answer.{answer_of};

use index::passed::Passed;
use refusal::{Refusal, Refused};

// Lists the ancestry of an item of a board that was accepted, in a list of zeros, and gives how many numbers were written. An item number
// that the board does not have is a refusal, with all items passed.
pub fn list_accepted(passed: &Passed, number: usize, list: &mut [u32]) -> Result<u32, Refused>
    requires { (list_need ≤ length list.old) × (list.old ≡ replicate (length list.old) 0) }
    ensures answer { answer_of result ≡ ancestry_answer (accepted (history_of passed.now)) number }
    ensures list { list.new ≡ list_after (accepted (history_of passed.now)) number list.old }
{
    let count = passed.count;
    // 19 no such point: item number 0, or past the last
    if number == 0 || count < number {
        return Err(Refused::after(Refusal::NoSuchItem, count));
    }
    Ok(climb::climb(passed, number, list) as u32)
}
