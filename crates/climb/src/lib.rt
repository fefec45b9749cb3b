// The ancestry of an item: its number, its parent's, its parent's parent's, up to genesis. The board is read through the index table that
// its audit left.
#![tactic(auto)]

ghost use Rattle.std.specs.Prelude.{◌≡◌, ◌≤◌, length};
ghost use Rattle.std.proofs.lemmas.List.Edits.{sets};
ghost use Rattle.model.specs.Ancestry.{ancestry};
ghost use Rattle.index.specs.Passed.{history_of};

use index::passed::Passed;

// Writes the item's number and those of its ancestors into the first words of the list, and returns how many they are.
pub fn climb(passed: &Passed, number: usize, list: &mut [u32]) -> usize
    requires { (1 ≤ number) × (number ≤ passed.now.count) × (number ≤ length list.old) }
    ensures answer { result ≡ length (ancestry (history_of passed.now) number) }
    ensures list { list.new ≡ sets list.old 0 (ancestry (history_of passed.now) number) }
{
    list[0] = number as u32;
    let parent = passed.parent(number);
    if parent == number {
        return 1;
    }
    climb(passed, parent, &mut list[1..]) + 1
}
