// 18. Make link.
ghost use Rattle.std.specs.Prelude.{◌≡◌};
ghost use Rattle.rules.specs.DecidePaths.{decide_symlink};
ghost use Rattle.tables.specs.Tables.{tree_seen};

use crate::create::create_new;
use rules::decision::{Decision, NewFile};
use rules::request::Subject;
use rules::rights::Bits;
use tables::layout::LINK;
use tables::lent::Tables;

// A link with a text of n bytes.
#[tactic(auto, unfolding(rules::specs::DecidePaths::decide_symlink))]
pub fn decide_symlink(t: &Tables, who: Subject, n: u32, path: &[u8]) -> Decision
    ensures { result ≡ decide_symlink t.now.policy.now (tree_seen t.now) who n path.now }
{
    let new = NewFile {
        kind: LINK,
        bits: Bits(0),
        length: n,
    };
    create_new(t, who, new, path)
}
