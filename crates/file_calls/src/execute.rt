// 17. Execute.
ghost use Rattle.std.specs.Prelude.{◌≡◌};
ghost use Rattle.rules.specs.Rights.{moved};
ghost use Rattle.rules.specs.DecidePaths.{execute_at, decide_execute};
ghost use Rattle.tables.specs.Tables.{file_in, tree_seen};

use resolution::walk::follow_path;
use rights::rights::{bits_allow_execute, label_allows};
use rom::seen::{is_plain, label};
use rules::decision::{Decision, Effect, granted};
use rules::ids::Slot;
use rules::refusal::Refusal;
use rules::request::Subject;
use rules::rights::Rights;
use tables::layout::NO_TRANSITION;
use tables::lent::Tables;
use tables::policy::transition_of;

// Where process label l moves by program label m.
#[tactic(auto, unfolding(rules::specs::Rights::moved))]
fn moved_label(policy: &[u8], l: u32, m: u32) -> u32
    ensures { result ≡ moved policy.now l m }
{
    let moved = transition_of(policy, l, m);
    if moved == NO_TRANSITION { l } else { moved }
}

#[tactic(auto, using(rules::proofs::Choices::steps), unfolding(rules::specs::DecidePaths::execute_at))]
fn execute_at(t: &Tables, who: Subject, s: Slot) -> Decision
    ensures { result ≡ execute_at t.now.policy.now (file_in t.now) who s }
{
    if !is_plain(t.files, s) {
        return Err(Refusal::WrongKind.into());
    }
    if !bits_allow_execute(t.files, who, s) {
        return Err(Refusal::BitsForbid.into());
    }
    if !label_allows(t, who, s, Rights::EXECUTE) {
        return Err(Refusal::LabelForbids.into());
    }
    granted(
        0,
        Effect::Relabelled(moved_label(t.policy, who.label, label(t.files, s))),
    )
}

#[tactic(auto, using(rules::proofs::Choices::steps), unfolding(rules::specs::DecidePaths::decide_execute, rules::specs::Checks::after))]
pub fn decide_execute(t: &Tables, who: Subject, path: &[u8]) -> Decision
    ensures { result ≡ decide_execute t.now.policy.now (tree_seen t.now) who path.now }
{
    let at = follow_path(t, who, path)?;
    execute_at(t, who, at.slot)
}
