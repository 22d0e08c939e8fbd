ghost use Rattle.std.specs.Prelude.{◌≡◌, ◌≤◌, true};
ghost use Rattle.pgs_run_lines.specs.Calls.{MakesReads};
ghost use Rattle.pgs_command.specs.Calls.{fails_read, fails_world};
ghost use Rattle.pgs_command.specs.Feeding.{Gives};
ghost use Rattle.pgs_command.specs.Promise.{Promise};
ghost use Rattle.pgs_command.specs.Setting.{setting_of};
ghost use Rattle.pgs_feed.specs.Deliveries.{kind_of};
ghost use Rattle.pgs_run_apply.specs.Ending.{EndsRun};
ghost use Rattle.pgs_run_apply.specs.Spec.{apply_spec};
ghost use Rattle.pgs_run_apply.specs.Told.{is_done, last_piece};
ghost use Rattle.pgs_run_lines.specs.declared.budget.TheConstants.{BUDGET};

use crate::applying::Applying;
use pgs_answer::feeds_lost_line;
use pgs_base::TEXT_LIMIT;
use pgs_command::{Status, status_at};
use pgs_feed::Feeds;
use pgs_run_lines::{Reply, Stop, put_reply, run_lines};
use pgs_run_store::{end_unopened, open_store};
use pgs_world::{Source, World};
use std::alloc::Global;
use std::mem;

fn is_whole(status: Status) -> bool
    ensures { result ≡ is_done status }
{
    matches!(status, Status::Accepted | Status::Refused)
}

// Ends a run: puts the number of the lost feeds behind a whole input, where there are any, and gives the status.
fn end_run<W: World>(alloc: Global, world: &mut W, status: Status, lost: u64) -> Status
    requires { fails_world status ≡ true → W.failed world.old }
    ensures ends { EndsRun (last_piece status lost) status (W.view world.old) result (W.view world.new) }
    ensures last { fails_world result ≡ true → W.failed world.new }
    ensures read { fails_read result ≡ fails_read status }
{
    if lost == 0 || !is_whole(status) {
        return status;
    }
    match feeds_lost_line(alloc, lost) {
        Ok(line) => put_reply(world, &Reply { line, status }),
        Err(_) => Status::Memory,
    }
}

/// Runs `apply` over an input within a budget of bytes, at most 2^40, on the store that is saved in both areas, and answers the status.
/// What it puts and answers is what `told_apply` tells, by the number of feeds that are lost after the last line. The areas are judged
/// first; where they save no store nothing is read. What it leaves of the world and of the feeds is said in `specs/Leaving.antt`.
pub fn run_apply<S: Source, W: World, L: Feeds>(
    alloc: Global,
    source: &mut S,
    world: &mut W,
    feeds: &mut L,
    budget: u64,
) -> Status
    requires { budget ≤ BUDGET }
    ensures promise { Promise apply_spec budget (setting_of (S.left source.old) (S.faults source.old) (W.view world.old) (L.places feeds.old))
        (setting_of (S.left source.new) (S.faults source.new) (W.view world.new) (L.places feeds.new)) result }
    // What feeds are given, and when: each line of a commit before the put of its verdict line.
    ensures gives { Gives apply_spec (kind_of L.places L.delivered)
        (setting_of (S.left source.old) (S.faults source.old) (W.view world.old) (L.places feeds.old))
        (setting_of (S.left source.new) (S.faults source.new) (W.view world.new) (L.places feeds.new)) feeds.old feeds.new result }
    ensures last { fails_world result ≡ true → W.failed world.new }
    ensures calls { MakesReads S.read_made budget source.old (fails_read result) source.new }
{
    let store = match open_store(alloc, world) {
        Ok(store) => store,
        Err(unopened) => return end_unopened(world, unopened),
    };
    let given = mem::replace(feeds, L::none(alloc));
    let mut applying = Applying::new(store, given);
    let stop = run_lines(&mut applying, alloc, source, world, TEXT_LIMIT, budget);
    *feeds = applying.into_feeds();
    end_run(alloc, world, status_at(stop), feeds.count_lost())
}
