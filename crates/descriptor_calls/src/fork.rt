// 15. Fork: the child. What it gets of each descriptor is `allocation::share`.
ghost use Rattle.std.specs.Prelude.{◌≡◌};
ghost use Rattle.rules.specs.Store.{proc_of};
ghost use Rattle.rules.specs.Decide.{decide_fork};

use allocation::free::free_pid;
use rules::decision::{Decision, Effect, granted};
use rules::ids::Pid;
use rules::refusal::Refusal;
use tables::ids::is_pid;
use tables::processes::subject;

#[tactic(auto, using(rules::proofs::Choices::steps), unfolding(rules::specs::Decide::fork_to))]
pub fn decide_fork(processes: &[u32], p: Pid) -> Decision
    ensures { result ≡ decide_fork (proc_of processes.now) p }
{
    let child = free_pid(processes);
    if !is_pid(child) {
        return Err(Refusal::TableFull.into());
    }
    granted(child.0 as u32, Effect::Forked(child, subject(processes, p)))
}
