// 13. Seek.
ghost use Rattle.std.specs.Prelude.{◌≡◌};
ghost use Rattle.rules.specs.Store.{desc_of};
ghost use Rattle.rules.specs.Decide.{decide_seek};

use allocation::held::{is_held, ofd_held};
use rules::decision::{Decision, Effect, granted};
use rules::ids::{Fd, Pid};
use rules::refusal::Refusal;

#[tactic(auto, using(rules::proofs::Choices::steps), unfolding(rules::specs::Decide::decide_seek))]
pub fn decide_seek(processes: &[u32], p: Pid, i: Fd, n: u32) -> Decision
    ensures { result ≡ decide_seek (desc_of processes.now) p i n }
{
    if !is_held(processes, p, i) {
        return Err(Refusal::NotHeld.into());
    }
    granted(n, Effect::Moved(ofd_held(processes, p, i), n))
}
