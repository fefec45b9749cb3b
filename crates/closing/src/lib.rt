// The closing word: 18, and the report of a board that is accepted.
#![tactic(auto)]

ghost use Rattle.std.specs.Prelude.{◌≡◌, ◌<◌, length};
ghost use Rattle.model.specs.History.{end_address};
ghost use Rattle.model.specs.Audit.{closing_ok};
ghost use Rattle.model.specs.Format.{longest_address};
ghost use Rattle.model.specs.Report.{filled, report_of};
ghost use Rattle.format.specs.Format.{format_of};
ghost use Rattle.state.specs.Reached.{history_behind};
ghost use Rattle.tally.specs.Tallied.{Tallied};
ghost use Rattle.report.specs.Reported.{reported};
ghost use Rattle.closing.specs.Outcome.{closing_outcome};

use format::board;
use keys::Verdict;
use refusal::Refusal;
use report::{Accepted, Report, refused};
use state::progress::Progress;

// Whether the closing word has the number of items, nothing follows it, and no verdict words are left over.
fn is_closed(progress: &Progress, verdicts: &[u32]) -> bool
    requires { progress.now.state.place < length progress.now.board.now }
    ensures { result ≡ closing_ok progress.now.board.now verdicts.now (history_behind progress.now) progress.now.state.place }
{
    let items = progress.state.items;
    board::is_closed(progress.board, items, progress.state.place)
        && Verdict::SIZE * items == verdicts.len()
}

// The address of the last main item, and zeros behind it; zeros where there is none.
fn end_address(progress: &Progress) -> [u32; 16]
    ensures { result ≡ filled longest_address (end_address (format_of progress.now.board.now) (history_behind progress.now)) }
{
    let mut end = [0; Accepted::END];
    let last = progress.state.last;
    if last == 0 {
        return end;
    }
    let item = progress.entry(last).item;
    let board = progress.board;
    words::put(&board[item.address..item.end], &mut end, 0);
    end
}

// The answer at the closing word.
pub fn close(progress: &Progress, verdicts: &[u32], ballots: &[u32]) -> Report
    requires tallied { Tallied progress.now.board.now ballots.now progress.now.state.items }
    requires place_in_bounds { progress.now.state.place < length progress.now.board.now }
    ensures { reported result ≡ report_of (format_of progress.now.board.now)
        (closing_outcome progress.now.board.now verdicts.now progress.now.state) }
{
    let state = progress.state;
    // 18 bad close
    if !is_closed(progress, verdicts) {
        return refused(Refusal::BadClosing, state.items);
    }
    Ok(Accepted {
        items: state.items as u32,
        mains: state.mains as u32,
        ballots: state.ballots as u32,
        weight: tally::total_weight(ballots, state.ballots),
        end: end_address(progress),
    })
}
