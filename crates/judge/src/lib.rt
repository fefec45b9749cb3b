// One item, judged: the checks in their order, "5, 6, 4, then 7 to 16", 21 "right after 13". The first that applies is the answer.
#![tactic(auto)]

ghost use Rattle.std.specs.Prelude.{◌≡◌, ◌≤◌, ◌<◌, length};
ghost use Rattle.model.specs.Audit.{item_limit};
ghost use Rattle.format.specs.Layout.{item_of};
ghost use Rattle.lookup.specs.Buckets.{parent_chain, session_chain};
ghost use Rattle.state.specs.Stands.{known_next};
ghost use Rattle.tally.specs.Tallied.{Tallied};
ghost use Rattle.judge.specs.Judged.{IsJudged};

use format::head::Head;
use format::item::Item;
use format::table;
use index::Known;
use lookup::chained::Parents;
use refusal::Refusal;
use roll::Roll;
use state::candidate::{Candidate, ListedItem};
use state::progress::Progress;

pub mod checks;

// What is known of the item after those that passed: its parts, its parent and its session.
fn known_of(progress: &Progress, parents: &[u32], item: Item) -> Known
    requires parents_value { parents.now ≡ parent_chain progress.now.board.now progress.now.state.items }
    requires item_value { (item ≡ item_of progress.now.board.now progress.now.state.place) × (item.end ≤ length progress.now.board.now) }
    ensures { result ≡ known_next progress.now.board.now progress.now.state }
{
    let parents = Parents {
        passed: progress.passed(),
        chain: parents,
    };
    let parent = lookup::parent_number(&parents, item);
    let session = lookup::session_number(&parents.passed, item, parent);
    Known {
        item,
        parent,
        session,
    }
}

// Judges the item after those that passed: it passes, and this is known of it; or the first refusal that applies.
pub fn judge(
    progress: &Progress,
    verdicts: &[u32],
    roll: &Roll,
    ballots: &[u32],
    parents: &[u32],
    sessions: &[u32],
) -> Result<Known, Refusal>
    requires tallied { Tallied progress.now.board.now ballots.now progress.now.state.items }
    requires parents_value { parents.now ≡ parent_chain progress.now.board.now progress.now.state.items }
    requires sessions_value { sessions.now ≡ session_chain progress.now.board.now progress.now.state.items }
    requires place_in_bounds { (progress.now.state.place < length progress.now.board.now) × (progress.now.state.items < item_limit) }
    ensures { IsJudged progress.now.board.now verdicts.now roll.now.words.now progress.now.index.now progress.now.state result }
{
    let board = progress.board;
    let place = progress.state.place;
    let head = Head::of(board[place]);
    // 5 stranger
    let Some(row) = table::row_of(board, head.kind, head.code) else {
        return Err(Refusal::UnknownType);
    };
    // 6 misfit
    if !row.counts.fits(head.count) {
        return Err(Refusal::WrongCount);
    }
    // 4 torn
    let item = Item::at(board, place);
    if board.len() < item.end {
        return Err(Refusal::Truncated);
    }
    let known = known_of(progress, parents, item);
    let candidate = Candidate {
        board,
        index: progress.index,
        state: progress.state,
        known,
    };
    let listed = ListedItem {
        candidate: &candidate,
        row,
    };
    checks::item_finding(&listed, verdicts, roll, ballots, sessions)?;
    Ok(known)
}
