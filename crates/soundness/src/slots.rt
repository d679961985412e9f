// What is owed of a slot, by its kind. Each function takes the tables that its rule looks at.
ghost use Rattle.std.specs.Prelude.{◌≡◌, [], ◌∷◌, ltb};
ghost use Rattle.rules.specs.Choice.{some};
ghost use Rattle.rules.specs.Scan.{all};
ghost use Rattle.rules.specs.Layout.{SLOTS, FILE_WIDTH, OPEN_FILE_WIDTH, FILE_LINKS};
ghost use Rattle.rules.specs.Store.{tab, shown_of, is_open};
ghost use Rattle.tables.specs.Tables.{open_in, stored_tree};
ghost use Rattle.rules.specs.Sound.{all_zero, plain_sound, slot_sound};
ghost use Rattle.soundness.specs.Counted.{kind_sound_by, slot_sound_by};

use crate::bytes::all_zero;
use crate::files::record_sound;
use crate::links::link_sound;
use crate::tree::{directory_sound, links_sound};
use counts::count::count_links;
use rules::ids::{Ofd, Slot};
use tables::files::{kind, length, links, shown};
use tables::layout::{DIRECTORY, LENGTH_MAX, LINK, OPEN_FILES, PLAIN, SLOTS};
use tables::lent::Tables;
use tables::open_files::open_but;

// The slots, and one past the last: the parent of what nothing names.
const SLOTS_AND_NONE: usize = (SLOTS as usize) + 1;

fn shown_zero(files: &[u32], contents: &[u8], s: Slot) -> bool
    ensures { result ≡ all_zero (shown_of files.now contents.now s.0) }
{
    all_zero(shown(files, contents, s))
}

#[tactic(auto, unfolding(rules::specs::Choice::some))]
fn named_or_open(files: &[u32], open_files: &[u32], s: Slot) -> bool
    ensures { result ≡ some (ltb 0 (tab FILE_WIDTH files.now s.0 FILE_LINKS) ∷ is_open (tab OPEN_FILE_WIDTH open_files.now) s ∷ []) }
{
    0 < links(files, s) || open_but(open_files, Ofd(OPEN_FILES), s)
}

#[tactic(auto, unfolding(rules::specs::Sound::plain_sound, rules::specs::Choice::every))]
fn plain_sound(t: &Tables, s: Slot) -> bool
    ensures { result ≡ plain_sound (stored_tree t.now) (open_in t.now) s.0 }
{
    length(t.files, s) <= LENGTH_MAX
        && named_or_open(t.files, t.open_files, s)
        && shown_zero(t.files, t.contents, s)
}

#[tactic(auto, unfolding(crate::specs::Counted::kind_sound_by))]
fn kind_sound(t: &Tables, parents: &[u32], s: Slot) -> bool
    ensures { result ≡ kind_sound_by (stored_tree t.now) (open_in t.now) parents.now s.0 }
{
    match kind(t.files, s) {
        DIRECTORY => directory_sound(t.files, t.contents, parents, s),
        PLAIN => plain_sound(t, s),
        LINK => link_sound(t.files, t.contents, s),
        _ => shown_zero(t.files, t.contents, s),
    }
}

#[tactic(auto, unfolding(crate::specs::Counted::slot_sound_by, rules::specs::Choice::every))]
fn slot_sound(t: &Tables, links: &[u32], parents: &[u32], s: Slot) -> bool
    ensures { result ≡ slot_sound_by (stored_tree t.now) (open_in t.now) links.now parents.now s.0 }
{
    record_sound(t.files, s) && links_sound(t.files, links, s) && kind_sound(t, parents, s)
}

// A loop: with a chain of `all` the whole test takes 6% longer.
fn all_slots_sound(t: &Tables, links: &[u32], parents: &[u32]) -> bool
    ensures { result ≡ all (slot_sound_by (stored_tree t.now) (open_in t.now) links.now parents.now) 0 SLOTS }
{
    for s in 0..SLOTS {
        if !slot_sound(t, links, parents, Slot(s)) {
            return false;
        }
    }
    true
}

pub fn slots_sound(t: &Tables) -> bool
    ensures { result ≡ all (slot_sound (stored_tree t.now) (open_in t.now)) 0 SLOTS }
{
    let mut links = [0; SLOTS_AND_NONE];
    let mut parents = [SLOTS; SLOTS_AND_NONE];
    count_links(t.files, t.contents, &mut links, &mut parents);
    all_slots_sound(t, &links, &parents)
}
