// The format of a board: its widths, its beginning and its end, head words, where an item's parts stand, limits, phases, sizes of contents,
// the table of item types.
#![tactic(auto)]

pub mod board;
pub mod format;
pub mod head;
pub mod item;
pub mod limit;
pub mod phase;
pub mod size;
pub mod table;
