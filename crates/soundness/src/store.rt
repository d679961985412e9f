// The whole test.
ghost use Rattle.std.specs.Prelude.{◌≡◌};
ghost use Rattle.rules.specs.Store.{view};
ghost use Rattle.tables.specs.Tables.{store_in, fixed_in, open_in, stored_tree};
ghost use Rattle.rules.specs.Sound.{sizes_sound, tree_sound, tables_sound, store_sound, sound};

use crate::dirents::rom_absent;
use crate::open_files::{open_files_sound, opens_within};
use crate::policy::policy_sound;
use crate::processes::processes_sound;
use crate::slots::slots_sound;
use rom::part::rom_sound;
use rules::ids::Slot;
use tables::files::{is_directory, shown};
use tables::layout::{CONTENTS_SIZE, FILES_SIZE, OPEN_FILES_SIZE, PROCESSES_SIZE};
use tables::lent::Tables;

// A record and a block for each slot, and the other tables: "lent tables of another size are 1".
#[tactic(auto, unfolding(rules::specs::Sound::sizes_sound, rules::specs::Sound::slots_sized, rules::specs::Choice::every))]
fn sizes_sound(t: &Tables) -> bool
    ensures { result ≡ sizes_sound (store_in t.now) }
{
    t.files.len() == FILES_SIZE
        && t.contents.len() == CONTENTS_SIZE
        && t.open_files.len() == OPEN_FILES_SIZE
        && t.processes.len() == PROCESSES_SIZE
}

// The root is a directory without the reserved name "rom", and every slot is sound.
#[tactic(auto, unfolding(rules::specs::Sound::tree_sound, rules::specs::Choice::every))]
fn tree_sound(t: &Tables) -> bool
    ensures { result ≡ tree_sound (stored_tree t.now) (open_in t.now) }
{
    is_directory(t.files, Slot(0))
        && rom_absent(shown(t.files, t.contents, Slot(0)))
        && slots_sound(t)
}

#[tactic(auto, unfolding(rules::specs::Sound::tables_sound, rules::specs::Choice::every))]
fn tables_sound(t: &Tables) -> bool
    ensures { result ≡ tables_sound (view (store_in t.now)) }
{
    tree_sound(t) && open_files_sound(t) && processes_sound(t.processes)
}

#[tactic(auto, unfolding(rules::specs::Sound::store_sound, rules::specs::Choice::every))]
pub fn store_sound(t: &Tables) -> bool
    ensures { result ≡ store_sound t.now.rom.now (store_in t.now) }
{
    sizes_sound(t) && tables_sound(t) && opens_within(t.open_files, t.rom)
}

#[tactic(auto, unfolding(rules::specs::Sound::sound, rules::specs::Choice::every))]
pub fn sound(t: &Tables) -> bool
    ensures { result ≡ sound (fixed_in t.now) (store_in t.now) }
{
    policy_sound(t.policy) && rom_sound(t.rom) && store_sound(t)
}
