// One item more: the item after those that passed, where it passes as well.
ghost use Rattle.index.specs.Known.{Passing};

use crate::Known;

// The board, the index table with the rows of the items that passed, how many they are, and what is known of the item after them, which
// passes.
#[derive(Clone, Copy)]
pub struct Addition<'a> {
    pub board: &'a [u32],
    pub index: &'a [u32],
    pub count: usize,
    pub known: Known,
    pub ghost passing: { ∥ Passing board.now index.now count known ∥₁ },
}
