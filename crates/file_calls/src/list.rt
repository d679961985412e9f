// 7. List.
ghost use Rattle.std.specs.Prelude.{◌≡◌};
ghost use Rattle.rules.specs.DecidePaths.{list_entry, list_at, decide_list};
ghost use Rattle.tables.specs.Tables.{tree_seen};

use directories::seen::ranked_in;
use resolution::walk::follow_path;
use rights::rights::permission_over;
use rom::seen::is_directory;
use rules::decision::{Decision, Effect, Grant, Output, granted};
use rules::ids::{Dirent, Slot};
use rules::refusal::Refusal;
use rules::request::Subject;
use rules::rights::Rights;
use tables::ids::is_entry;
use tables::lent::Tables;

#[tactic(auto, unfolding(rules::specs::DecidePaths::list_entry))]
fn list_entry(d: Slot, i: Dirent) -> Decision
    ensures { result ≡ list_entry d i }
{
    if !is_entry(i) {
        return granted(0, Effect::Nothing);
    }
    Ok(Grant {
        value: 1,
        output: Output::Name(d, i),
        effect: Effect::Nothing,
    })
}

#[tactic(auto, using(rights::proofs::Permissions::asked), unfolding(rules::specs::DecidePaths::list_at))]
fn list_at(t: &Tables, who: Subject, k: u32, d: Slot) -> Decision
    ensures { result ≡ list_at t.now.policy.now (tree_seen t.now) who k d }
{
    if !is_directory(t.files, d) {
        return Err(Refusal::WrongKind.into());
    }
    permission_over(t, who, d, Rights::READ)?;
    list_entry(d, ranked_in(t, d, k))
}

#[tactic(auto, using(rules::proofs::Choices::steps), unfolding(rules::specs::DecidePaths::decide_list, rules::specs::Checks::after))]
pub fn decide_list(t: &Tables, who: Subject, k: u32, path: &[u8]) -> Decision
    ensures { result ≡ decide_list t.now.policy.now (tree_seen t.now) who k path.now }
{
    let at = follow_path(t, who, path)?;
    list_at(t, who, k, at.slot)
}
