// What a child gets of each of its parent's descriptors.
ghost use Rattle.std.specs.Prelude.{◌≡◌};
ghost use Rattle.rules.specs.Layout.{OPEN_FILE_WIDTH};
ghost use Rattle.rules.specs.Store.{tab, desc_of};
ghost use Rattle.rules.specs.Checks.{ofd_held, share_of};

use crate::held::{is_held, ofd_held};
use rules::decision::Shared;
use rules::ids::{Fd, Ofd, Pid};
use tables::numbers::up_one;
use tables::open_files::references;

// What a child gets of descriptor i: nothing, or one reference more to its open file.
#[tactic(auto, unfolding(rules::specs::Checks::share_of))]
pub fn share(open_files: &[u32], processes: &[u32], p: Pid, i: Fd) -> Option<Shared>
    ensures { result ≡ share_of (tab OPEN_FILE_WIDTH open_files.now) (desc_of processes.now) p i }
{
    if !is_held(processes, p, i) {
        return None;
    }
    let e = ofd_held(processes, p, i);
    Some(Shared {
        ofd: e,
        references: up_one(references(open_files, e)),
    })
}
