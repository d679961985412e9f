// The tree, by the counted links and parents: each slot is named as often as its record says, and each directory is reached from the root.
ghost use Rattle.std.specs.Prelude.{◌≡◌, get_or};
ghost use Rattle.rules.specs.Layout.{FILE_WIDTH};
ghost use Rattle.rules.specs.Store.{tab, tree, slot};
ghost use Rattle.soundness.specs.Counted.{links_sound_by, climbs_by, directory_sound_by};

use crate::dirents::dirents_sound;
use rules::ids::Slot;
use tables::files::{length, links, shown};
use tables::layout::NAMES;
use tables::words::get_or;

#[tactic(auto, unfolding(crate::specs::Counted::links_sound_by))]
pub fn links_sound(files: &[u32], counted: &[u32], s: Slot) -> bool
    ensures { result ≡ links_sound_by (tab FILE_WIDTH files.now) counted.now s.0 }
{
    if s.0 == 0 {
        links(files, s) == 0
    } else {
        links(files, s) == get_or(counted, s.0 as usize, 0)
    }
}

fn parent_of(parents: &[u32], d: Slot) -> Slot
    ensures { result ≡ slot (get_or parents.now d.0 0) }
{
    Slot(get_or(parents, d.0 as usize, 0))
}

fn climbs(parents: &[u32], n: u8, d: Slot) -> bool
    ensures { result ≡ climbs_by parents.now n d.0 }
{
    let mut at = d;
    for _step in 0..n {
        if at.0 == 0 {
            return true;
        }
        at = parent_of(parents, at);
    }
    at.0 == 0
}

#[tactic(auto, unfolding(crate::specs::Counted::directory_sound_by, rules::specs::Choice::every, rules::specs::Choice::some))]
pub fn directory_sound(files: &[u32], contents: &[u8], parents: &[u32], d: Slot) -> bool
    ensures { result ≡ directory_sound_by (tree files.now contents.now) parents.now d.0 }
{
    dirents_sound(files, shown(files, contents, d), length(files, d))
        && (d.0 == 0 || links(files, d) == 1)
        && climbs(parents, NAMES, d)
}
