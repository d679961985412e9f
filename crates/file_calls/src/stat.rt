// 9. Stat.
ghost use Rattle.std.specs.Prelude.{◌≡◌};
ghost use Rattle.rules.specs.DecidePaths.{decide_stat};
ghost use Rattle.tables.specs.Tables.{tree_seen};

use resolution::walk::walk_path;
use rom::seen::record;
use rules::decision::{Decision, Effect, Grant, Output};
use rules::request::Subject;
use tables::lent::Tables;

#[tactic(auto, using(rules::proofs::Choices::steps), unfolding(rules::specs::DecidePaths::decide_stat, rules::specs::Checks::after))]
pub fn decide_stat(t: &Tables, who: Subject, path: &[u8]) -> Decision
    ensures { result ≡ decide_stat t.now.policy.now t.now.rom.now (tree_seen t.now) who path.now }
{
    let at = walk_path(t, who, path)?;
    Ok(Grant {
        value: 0,
        output: Output::Fields(record(t.files, t.rom, at.slot)),
        effect: Effect::Nothing,
    })
}
