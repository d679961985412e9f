// 14. Duplicate.
ghost use Rattle.std.specs.Prelude.{◌≡◌};
ghost use Rattle.rules.specs.Layout.{OPEN_FILE_WIDTH};
ghost use Rattle.rules.specs.Store.{tab, desc_of};
ghost use Rattle.rules.specs.Decide.{duplicate_to, decide_duplicate};

use allocation::free::free_fd;
use allocation::held::{is_held, ofd_held};
use rules::decision::{Decision, Effect, granted};
use rules::ids::{Fd, Ofd, Pid};
use rules::refusal::Refusal;
use tables::ids::is_fd;
use tables::numbers::up_one;
use tables::open_files::references;

#[tactic(auto, using(rules::proofs::Choices::steps), unfolding(rules::specs::Decide::duplicate_to))]
fn duplicate_to(open_files: &[u32], e: Ofd, i: Fd) -> Decision
    ensures { result ≡ duplicate_to (tab OPEN_FILE_WIDTH open_files.now) e i }
{
    if !is_fd(i) {
        return Err(Refusal::TableFull.into());
    }
    granted(
        i.0 as u32,
        Effect::Duplicated(i, e, up_one(references(open_files, e))),
    )
}

#[tactic(auto, using(rules::proofs::Choices::steps), unfolding(rules::specs::Decide::decide_duplicate))]
pub fn decide_duplicate(open_files: &[u32], processes: &[u32], p: Pid, i: Fd) -> Decision
    ensures { result ≡ decide_duplicate (tab OPEN_FILE_WIDTH open_files.now) (desc_of processes.now) p i }
{
    if !is_held(processes, p, i) {
        return Err(Refusal::NotHeld.into());
    }
    duplicate_to(open_files, ofd_held(processes, p, i), free_fd(processes, p))
}
