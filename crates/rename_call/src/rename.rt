// 20. Rename.
ghost use Rattle.std.specs.Prelude.{◌≡◌};
ghost use Rattle.rules.specs.Rom.{files_in};
ghost use Rattle.rules.specs.DecidePaths.{transfer_to, rename_to, rename_at, rename_new, decide_rename};
ghost use Rattle.tables.specs.Tables.{file_in, shown_in, tree_seen};

use directories::changes::{free_in, gaining, is_absent, losing, renaming};
use resolution::walk::{walk_new, walk_path};
use rights::rights::{permission_over, permission_to_name};
use rom::seen::is_directory;
use rules::decision::{Decision, Effect, Location, granted};
use rules::ids::{Dirent, Slot};
use rules::refusal::Refusal;
use rules::request::Subject;
use rules::rights::Rights;
use tables::ids::is_dirent;
use tables::lent::Tables;

// Entry i of another directory is the new one.
#[tactic(auto, using(rules::proofs::Choices::steps), unfolding(rules::specs::DecidePaths::transfer_to))]
fn transfer_to(files: &[u32], old: Location, d: Slot, i: Dirent) -> Decision
    ensures { result ≡ transfer_to (files_in files.now) old d i }
{
    if is_directory(files, old.slot) {
        return Err(Refusal::WrongKind.into());
    }
    if !is_dirent(i) {
        return Err(Refusal::TableFull.into());
    }
    let from = losing(files, old.dir, old.dirent);
    granted(0, Effect::Transferred(from, gaining(files, d, i), old.slot))
}

// Within its parent the entry is kept. The same parent is the same slot, by whatever path.
#[tactic(auto, unfolding(rules::specs::DecidePaths::rename_to))]
fn rename_to(t: &Tables, old: Location, d: Slot) -> Decision
    ensures { result ≡ rename_to (file_in t.now) (shown_in t.now) old d }
{
    if old.dir.0 == d.0 {
        granted(
            0,
            Effect::Renamed(renaming(t.files, old.dir, old.dirent), old.slot),
        )
    } else {
        transfer_to(t.files, old, d, free_in(t, d))
    }
}

// The new name's entry in its parent is looked up, then write on the old parent is asked, and on the new one.
#[tactic(auto, using(rights::proofs::Permissions::asked), unfolding(rules::specs::DecidePaths::rename_at))]
fn rename_at(t: &Tables, who: Subject, old: Location, at: Location) -> Decision
    ensures { result ≡ rename_at t.now.policy.now (file_in t.now) (shown_in t.now) who old at }
{
    if !is_absent(at) {
        return Err(Refusal::NameThere.into());
    }
    permission_to_name(t, who, old.dir, old.slot)?;
    permission_over(t, who, at.dir, Rights::WRITE)?;
    rename_to(t, old, at.dir)
}

// The new name, once the old one is found.
#[tactic(auto, using(rules::proofs::Choices::steps), unfolding(rules::specs::DecidePaths::rename_new, rules::specs::Checks::after))]
fn rename_new(t: &Tables, who: Subject, new: &[u8], old: Location) -> Decision
    ensures { result ≡ rename_new t.now.policy.now (tree_seen t.now) who new.now old }
{
    let at = walk_new(t, who, new)?;
    rename_at(t, who, old, at)
}

#[tactic(auto, using(rules::proofs::Choices::steps), unfolding(rules::specs::DecidePaths::decide_rename, rules::specs::Checks::after))]
pub fn decide_rename(t: &Tables, who: Subject, old: &[u8], new: &[u8]) -> Decision
    ensures { result ≡ decide_rename t.now.policy.now (tree_seen t.now) who old.now new.now }
{
    let at = walk_path(t, who, old)?;
    rename_new(t, who, new, at)
}
