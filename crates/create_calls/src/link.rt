// 6. Link.
ghost use Rattle.std.specs.Prelude.{◌≡◌};
ghost use Rattle.rules.specs.Rom.{files_in};
ghost use Rattle.rules.specs.DecidePaths.{link_room, link_at, link_to, decide_link};
ghost use Rattle.tables.specs.Tables.{file_in, shown_in, tree_seen};

use directories::changes::{free_in, gaining, is_absent};
use resolution::walk::{walk_new, walk_path};
use rights::rights::permission_to_name;
use rom::seen::is_plain;
use rules::decision::{Decision, Effect, Location, granted};
use rules::ids::{Dirent, Slot};
use rules::refusal::Refusal;
use rules::request::Subject;
use tables::ids::is_dirent;
use tables::lent::Tables;
use tables::numbers::up_one;

#[tactic(auto, using(rules::proofs::Choices::steps), unfolding(rules::specs::DecidePaths::link_room))]
fn link_room(files: &[u32], old: Slot, d: Slot, i: Dirent) -> Decision
    ensures { result ≡ link_room (files_in files.now) old d i }
{
    if !is_dirent(i) {
        return Err(Refusal::TableFull.into());
    }
    granted(
        0,
        Effect::Linked(
            gaining(files, d, i),
            old,
            up_one(rom::seen::links(files, old)),
        ),
    )
}

// The new name's entry in its parent is looked up.
#[tactic(auto, using(rights::proofs::Permissions::asked), unfolding(rules::specs::DecidePaths::link_at))]
fn link_at(t: &Tables, who: Subject, old: Slot, at: Location) -> Decision
    ensures { result ≡ link_at t.now.policy.now (file_in t.now) (shown_in t.now) who old at }
{
    if !is_absent(at) {
        return Err(Refusal::NameThere.into());
    }
    permission_to_name(t, who, at.dir, old)?;
    link_room(t.files, old, at.dir, free_in(t, at.dir))
}

// The new name, once the old file is found.
#[tactic(auto, using(rules::proofs::Choices::steps), unfolding(rules::specs::DecidePaths::link_to, rules::specs::Checks::after))]
fn link_to(t: &Tables, who: Subject, new: &[u8], old: Slot) -> Decision
    ensures { result ≡ link_to t.now.policy.now (tree_seen t.now) who new.now old }
{
    if !is_plain(t.files, old) {
        return Err(Refusal::WrongKind.into());
    }
    let at = walk_new(t, who, new)?;
    link_at(t, who, old, at)
}

#[tactic(auto, using(rules::proofs::Choices::steps), unfolding(rules::specs::DecidePaths::decide_link, rules::specs::Checks::after))]
pub fn decide_link(t: &Tables, who: Subject, old: &[u8], new: &[u8]) -> Decision
    ensures { result ≡ decide_link t.now.policy.now (tree_seen t.now) who old.now new.now }
{
    let at = walk_path(t, who, old)?;
    link_to(t, who, new, at.slot)
}
