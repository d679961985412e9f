// 19. Read link.
ghost use Rattle.std.specs.Prelude.{◌≡◌};
ghost use Rattle.rules.specs.DecidePaths.{read_link_at, decide_read_link};
ghost use Rattle.rules.specs.Rom.{files_in};
ghost use Rattle.tables.specs.Tables.{tree_seen};

use resolution::walk::walk_path;
use rom::seen::{is_link, length};
use rules::decision::{Decision, Effect, Grant, Output};
use rules::ids::Slot;
use rules::refusal::Refusal;
use rules::request::Subject;
use tables::lent::Tables;
use tables::numbers::smaller;

#[tactic(auto, using(rules::proofs::Choices::steps), unfolding(rules::specs::DecidePaths::read_link_at))]
fn read_link_at(files: &[u32], size: usize, s: Slot) -> Decision
    ensures { result ≡ read_link_at (files_in files.now) size s }
{
    if !is_link(files, s) {
        return Err(Refusal::WrongKind.into());
    }
    let n = smaller(size, length(files, s));
    Ok(Grant {
        value: n,
        output: Output::Bytes(s, 0, n),
        effect: Effect::Nothing,
    })
}

// `size` is the buffer's.
#[tactic(auto, using(rules::proofs::Choices::steps), unfolding(rules::specs::DecidePaths::decide_read_link, rules::specs::Checks::after))]
pub fn decide_read_link(t: &Tables, who: Subject, size: usize, path: &[u8]) -> Decision
    ensures { result ≡ decide_read_link t.now.policy.now (tree_seen t.now) who size path.now }
{
    let at = walk_path(t, who, path)?;
    read_link_at(t.files, size, at.slot)
}
