// What a borrowing read is answered.
ghost use Rattle.std.specs.Prelude.{◌≡◌};
ghost use Rattle.rules.specs.Decide.{decide_borrow};
ghost use Rattle.borrow.specs.Judged.{judged, refusal_of};
ghost use Rattle.tables.specs.Tables.{store_in, fixed_in, view_in};

use allocation::held::in_use;
use rules::decision::Decision;
use rules::ids::{Fd, Pid};
use rules::refusal::Refusal;
use soundness::store::sound;
use tables::layout::LENGTH_MAX;
use tables::lent::Tables;
use tables::processes::subject;
use transfer_calls::read::decide_read;

// As a read, by the label that the process has now.
#[tactic(auto, using(rules::proofs::Choices::steps), unfolding(rules::specs::Decide::decide_borrow))]
fn decide_borrow(t: &Tables, p: Pid, i: Fd, n: u32) -> Decision
    ensures { result ≡ decide_borrow (fixed_in t.now) (view_in t.now) p i n }
{
    if !in_use(t.processes, p) {
        return Err(Refusal::NoProcess.into());
    }
    if LENGTH_MAX < n {
        return Err(Refusal::Malformed.into());
    }
    decide_read(t, p, subject(t.processes, p), i, n as usize)
}

// The soundness test first.
#[tactic(auto, using(rules::proofs::Choices::steps), unfolding(crate::specs::Judged::judged))]
pub fn judge(t: &Tables, p: Pid, i: Fd, n: u32) -> Decision
    ensures { result ≡ judged (fixed_in t.now) (store_in t.now) p i n }
{
    if !sound(t) {
        return Err(Refusal::Unsound.into());
    }
    decide_borrow(t, p, i, n)
}

// The refusal, 0 where it is granted.
#[tactic(auto, unfolding(crate::specs::Judged::refusal_of))]
pub fn refusal_of(d: Decision) -> u32
    ensures { result ≡ refusal_of d }
{
    match d {
        Ok(_) => 0,
        Err(stop) => stop.refusal.number(),
    }
}
