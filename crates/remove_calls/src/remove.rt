// 5. Remove directory.
ghost use Rattle.std.specs.Prelude.{◌≡◌};
ghost use Rattle.rules.specs.Rom.{files_in};
ghost use Rattle.rules.specs.DecidePaths.{remove_empty, remove_at, decide_remove};
ghost use Rattle.tables.specs.Tables.{file_in, tree_seen};

use allocation::last::freed_record;
use directories::changes::losing;
use resolution::walk::walk_path;
use rights::rights::permission_to_name;
use rom::seen::is_directory;
use rules::decision::{Decision, Effect, Location, granted};
use rules::refusal::Refusal;
use rules::request::Subject;
use tables::lent::Tables;

#[tactic(auto, using(rules::proofs::Choices::steps), unfolding(rules::specs::DecidePaths::remove_empty))]
fn remove_empty(files: &[u32], at: Location) -> Decision
    ensures { result ≡ remove_empty (files_in files.now) at }
{
    if rom::seen::length(files, at.slot) != 0 {
        return Err(Refusal::NotEmpty.into());
    }
    let change = losing(files, at.dir, at.dirent);
    granted(
        0,
        Effect::Removed(change, at.slot, freed_record(files, at.slot)),
    )
}

#[tactic(auto, using(rights::proofs::Permissions::asked), unfolding(rules::specs::DecidePaths::remove_at))]
fn remove_at(t: &Tables, who: Subject, at: Location) -> Decision
    ensures { result ≡ remove_at t.now.policy.now (file_in t.now) who at }
{
    if !is_directory(t.files, at.slot) {
        return Err(Refusal::WrongKind.into());
    }
    permission_to_name(t, who, at.dir, at.slot)?;
    remove_empty(t.files, at)
}

#[tactic(auto, using(rules::proofs::Choices::steps), unfolding(rules::specs::DecidePaths::decide_remove, rules::specs::Checks::after))]
pub fn decide_remove(t: &Tables, who: Subject, path: &[u8]) -> Decision
    ensures { result ≡ decide_remove t.now.policy.now (tree_seen t.now) who path.now }
{
    let at = walk_path(t, who, path)?;
    remove_at(t, who, at)
}
