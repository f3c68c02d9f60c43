// Dead segments side by side are joined, so that a walk passes them in one step.
ghost use Rattle.std.specs.Prelude.{◌≤◌, ◌<◌, length};
ghost use Rattle.rows.specs.Layouts.{Fits, total, rows_in, Room};
ghost use Rattle.tidy_rules.specs.Walks.{JoinsAt};

use crate::GONE;
use rows::Layout;
use rows::read::kind_at;
use rows::write::set_row;

// Joins the segment from `at` to `next`, if it is dead, with the dead rows from `run` to `at`. Returns where the dead rows before `next`
// begin; this is `next` itself if the segment is live.
pub fn join_at(b: &mut [u8], s: Layout, run: usize, at: usize, next: usize) -> usize
    requires { Room s (length b.old) × Fits s (total s) × (run ≤ at) × (at < next) × (next ≤ total s) }
    ensures { JoinsAt (rows_in s b.old) (rows_in s b.new) run at next result }
{
    if kind_at(b, s, at) != GONE {
        return next;
    }
    set_row(b, s, run, GONE, next - run);
    run
}
