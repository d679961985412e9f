// 10. Close.
ghost use Rattle.std.specs.Prelude.{◌≡◌};
ghost use Rattle.rules.specs.Decide.{decide_close};
ghost use Rattle.tables.specs.Tables.{file_in, open_in, desc_in};

use allocation::held::is_held;
use allocation::release::release;
use rules::decision::{Decision, Effect, granted};
use rules::ids::{Fd, Pid};
use rules::refusal::Refusal;
use tables::lent::Tables;

#[tactic(auto, using(rules::proofs::Choices::steps), unfolding(rules::specs::Decide::decide_close))]
pub fn decide_close(t: &Tables, p: Pid, i: Fd) -> Decision
    ensures { result ≡ decide_close (file_in t.now) (open_in t.now) (desc_in t.now) p i }
{
    if !is_held(t.processes, p, i) {
        return Err(Refusal::NotHeld.into());
    }
    granted(
        0,
        Effect::Closed(i, release(t.files, t.open_files, t.processes, p, i)),
    )
}
