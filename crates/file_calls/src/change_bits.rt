// 8. Change bits.
ghost use Rattle.std.specs.Prelude.{◌≡◌};
ghost use Rattle.rules.specs.DecidePaths.{may_change, change_bits_at, decide_change_bits};
ghost use Rattle.rules.specs.Rom.{files_in};
ghost use Rattle.tables.specs.Tables.{file_in, tree_seen};

use resolution::walk::follow_path;
use rights::rights::{is_owner, label_allows};
use rom::seen::owner;
use rules::decision::{Decision, Effect, granted};
use rules::ids::Slot;
use rules::refusal::Refusal;
use rules::request::Subject;
use rules::rights::{Bits, Rights};
use tables::ids::is_slot;
use tables::lent::Tables;

// The owner's, and of the store.
#[tactic(auto, unfolding(rules::specs::DecidePaths::may_change, rules::specs::Choice::every))]
fn may_change(files: &[u32], who: Subject, s: Slot) -> bool
    ensures { result ≡ may_change (files_in files.now) who s }
{
    is_owner(who, owner(files, s)) && is_slot(s)
}

#[tactic(auto, using(rules::proofs::Choices::steps), unfolding(rules::specs::DecidePaths::change_bits_at))]
fn change_bits_at(t: &Tables, who: Subject, bits: Bits, s: Slot) -> Decision
    ensures { result ≡ change_bits_at t.now.policy.now (file_in t.now) who bits s }
{
    if !may_change(t.files, who, s) {
        return Err(Refusal::BitsForbid.into());
    }
    if !label_allows(t, who, s, Rights::WRITE) {
        return Err(Refusal::LabelForbids.into());
    }
    granted(0, Effect::BitsChanged(s, bits))
}

#[tactic(auto, using(rules::proofs::Choices::steps), unfolding(rules::specs::DecidePaths::decide_change_bits, rules::specs::Checks::after))]
pub fn decide_change_bits(t: &Tables, who: Subject, bits: Option<Bits>, path: &[u8]) -> Decision
    ensures { result ≡ decide_change_bits t.now.policy.now (tree_seen t.now) who bits path.now }
{
    let bits = bits.ok_or(Refusal::Malformed)?;
    let at = follow_path(t, who, path)?;
    change_bits_at(t, who, bits, at.slot)
}
