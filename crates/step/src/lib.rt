// One step of the audit: the item after those that passed is judged, and where it passes, the state and all tables go on behind it.
#![tactic(auto)]

ghost use Rattle.std.specs.Prelude.{◌≡◌, ◌+◌, ◌<◌, length};
ghost use Rattle.model.specs.Audit.{item_limit};
ghost use Rattle.index.specs.Known.{Passing};
ghost use Rattle.step.specs.Steps.{Reached, Stepped};

use index::Known;
use index::addition::Addition;
use refusal::Refusal;
use roll::Roll;
use state::State;
use state::progress::Progress;

// The state and the tables with an item that passes.
fn pass(
    board: &[u32],
    index: &mut [u32],
    ballots: &mut [u32],
    parents: &mut [u32],
    sessions: &mut [u32],
    s: State,
    c: Known,
) -> State
    requires { (Reached board.now index.old ballots.old parents.old sessions.old s)
        × (Passing board.now index.old s.items c) }
    ensures { (result.items ≡ s.items + 1)
        × (Reached board.now index.new ballots.new parents.new sessions.new result) }
{
    let addition = Addition {
        board,
        index,
        count: s.items,
        known: c,
    };
    let rows = tally::after(&addition, ballots, s.ballots);
    let next = s.after(&addition, rows);
    lookup::bucket::link(&addition, parents, sessions);
    index::put(board, index, s.items, c, s.mains);
    next
}

// Judges the item after those that passed, and goes on behind it if it passes; where it is refused, the tables stay.
pub fn advance(
    board: &[u32],
    verdicts: &[u32],
    roll: &Roll,
    index: &mut [u32],
    ballots: &mut [u32],
    parents: &mut [u32],
    sessions: &mut [u32],
    s: State,
) -> Result<State, Refusal>
    requires reached { Reached board.now index.old ballots.old parents.old sessions.old s }
    requires place_in_bounds { (s.place < length board.now) × (s.items < item_limit) }
    ensures { Stepped board.now verdicts.now roll.now.words.now
        index.old ballots.old parents.old sessions.old
        index.new ballots.new parents.new sessions.new s result }
{
    let progress = Progress {
        board,
        index,
        state: s,
    };
    let known = judge::judge(&progress, verdicts, roll, ballots, parents, sessions)?;
    Ok(pass(board, index, ballots, parents, sessions, s, known))
}
