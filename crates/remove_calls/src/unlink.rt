// 4. Unlink.
ghost use Rattle.std.specs.Prelude.{◌≡◌, [], ◌∷◌};
ghost use Rattle.rules.specs.Choice.{some};
ghost use Rattle.rules.specs.Walk.{is_plain, is_link};
ghost use Rattle.rules.specs.Layout.{OPEN_FILE_WIDTH};
ghost use Rattle.rules.specs.Store.{tab};
ghost use Rattle.rules.specs.Rom.{files_in};
ghost use Rattle.rules.specs.Checks.{unnaming};
ghost use Rattle.rules.specs.DecidePaths.{unlink_at, decide_unlink};
ghost use Rattle.tables.specs.Tables.{file_in, open_in, tree_seen};

use allocation::last::{freed_record, none_but};
use directories::changes::losing;
use resolution::walk::walk_path;
use rights::rights::permission_to_name;
use rom::seen::{is_link, is_plain, links};
use rules::decision::{Decision, Effect, Location, Unnamed, granted};
use rules::ids::{Ofd, Slot};
use rules::refusal::Refusal;
use rules::request::Subject;
use tables::layout::OPEN_FILES;
use tables::lent::Tables;

// The plain file or link in slot s loses a name, and goes with it where it has no other name and no open file.
#[tactic(auto, unfolding(rules::specs::Checks::unnaming, rules::specs::Choice::every))]
fn unname(files: &[u32], open_files: &[u32], s: Slot) -> Unnamed
    ensures { result ≡ unnaming (files_in files.now) (tab OPEN_FILE_WIDTH open_files.now) s }
{
    let left = links(files, s).saturating_sub(1);
    if left == 0 && none_but(open_files, Ofd(OPEN_FILES), s) {
        Unnamed::Freed(s, freed_record(files, s))
    } else {
        Unnamed::Kept(s, left)
    }
}

#[tactic(auto, unfolding(rules::specs::Choice::some))]
fn is_unlinkable(files: &[u32], s: Slot) -> bool
    ensures { result ≡ some (is_plain (files_in files.now) s ∷ is_link (files_in files.now) s ∷ []) }
{
    is_plain(files, s) || is_link(files, s)
}

#[tactic(auto, using(rights::proofs::Permissions::asked), unfolding(rules::specs::DecidePaths::unlink_at))]
fn unlink_at(t: &Tables, who: Subject, at: Location) -> Decision
    ensures { result ≡ unlink_at t.now.policy.now (file_in t.now) (open_in t.now) who at }
{
    if !is_unlinkable(t.files, at.slot) {
        return Err(Refusal::WrongKind.into());
    }
    permission_to_name(t, who, at.dir, at.slot)?;
    let change = losing(t.files, at.dir, at.dirent);
    granted(
        0,
        Effect::Unlinked(change, unname(t.files, t.open_files, at.slot)),
    )
}

#[tactic(auto, using(rules::proofs::Choices::steps), unfolding(rules::specs::DecidePaths::decide_unlink, rules::specs::Checks::after))]
pub fn decide_unlink(t: &Tables, who: Subject, path: &[u8]) -> Decision
    ensures { result ≡ decide_unlink t.now.policy.now (tree_seen t.now) (open_in t.now) who path.now }
{
    let at = walk_path(t, who, path)?;
    unlink_at(t, who, at)
}
