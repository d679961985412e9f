// A directory's entries. `dir` is what the view shows of its slot, `name` an entry from its first byte on.
ghost use Rattle.std.specs.Prelude.{◌≡◌};
ghost use Rattle.rules.specs.Scan.{all, count};
ghost use Rattle.rules.specs.Layout.{FILE_WIDTH, DIRENTS, NAME};
ghost use Rattle.rules.specs.Store.{tab};
ghost use Rattle.rules.specs.Directories.{is_padding};
ghost use Rattle.rules.specs.Sound.{name_byte_sound, name_sound, used_sound, dirent_sound, is_new, is_used, entries_sound, dirents_sound, rom_absent};
ghost use Rattle.soundness.specs.Counted.{other_than, other_words};

use crate::bytes::all_zero;
use directories::entries::stored_by;
use directories::seen::ROM_LOW;
use rules::ids::{Dirent, Slot};
use tables::directories::{dirent_at, dirent_slot, high_at, is_empty, is_padding, low_at};
use tables::files::is_free;
use tables::ids::{is_dirent, is_slot};
use tables::layout::{DIRENT_WIDTH, DIRENTS, NAME};
use tables::name_words::{high_word, low_word};
use tables::names::is_dots;
use tables::parts::after;
use tables::words::get_or;

const SLASH: u8 = b'/';

// How many bytes a name has, as an index into it.
const NAME_BYTES: u32 = NAME as u32;

// The bytes of all entries.
const ENTRIES: usize = (DIRENTS as usize) * DIRENT_WIDTH;

// Byte k is no slash, and after a 0 comes 0.
#[tactic(auto, unfolding(rules::specs::Sound::name_byte_sound, rules::specs::Choice::every, rules::specs::Choice::implies, rules::specs::Choice::some))]
fn name_byte_sound(name: &[u8], k: u32) -> bool
    ensures { result ≡ name_byte_sound name.now k }
{
    let here = k as usize;
    get_or(name, here, 0) != SLASH
        && (!is_padding(name, here) || here + 1 == NAME || is_padding(name, here + 1))
}

fn name_bytes_sound(name: &[u8]) -> bool
    ensures { result ≡ all (name_byte_sound name.now) 0 NAME }
{
    (0..NAME_BYTES).all(|k| name_byte_sound(name, k))
}

#[tactic(auto, unfolding(rules::specs::Sound::name_sound, rules::specs::Choice::every))]
fn name_sound(name: &[u8]) -> bool
    ensures { result ≡ name_sound name.now }
{
    !is_padding(name, 0) && name_bytes_sound(name) && !is_dots(name)
}

// A name, and a slot in use.
#[tactic(auto, unfolding(rules::specs::Sound::used_sound, rules::specs::Choice::every))]
fn used_sound(files: &[u32], name: &[u8], target: Slot) -> bool
    ensures { result ≡ used_sound (tab FILE_WIDTH files.now) name.now target.0 }
{
    name_sound(name) && is_slot(target) && !is_free(files, target)
}

// By the name's two words: most entries of a directory are empty, and all 14 bytes of each are asked for.
fn all_padding(name: &[u8]) -> bool
    ensures { result ≡ all (is_padding name.now) 0 NAME }
{
    low_word(name) == 0 && high_word(name) == 0
}

#[tactic(auto, unfolding(rules::specs::Sound::dirent_sound, rules::specs::Choice::every))]
fn dirent_sound(files: &[u32], dir: &[u8], i: Dirent) -> bool
    ensures { result ≡ dirent_sound (tab FILE_WIDTH files.now) dir.now i.0 }
{
    let entry = dirent_at(dir, i);
    get_or(entry, NAME + 1, 0) == 0
        && if is_empty(dir, i) {
            all_padding(entry)
        } else {
            used_sound(files, entry, dirent_slot(dir, i))
        }
}

fn all_dirents_sound(files: &[u32], dir: &[u8]) -> bool
    ensures { result ≡ all (dirent_sound (tab FILE_WIDTH files.now) dir.now) 0 DIRENTS }
{
    (0..DIRENTS).all(|i| dirent_sound(files, dir, Dirent(i)))
}

// Entry j is empty or has another name than the one of these words. The low word is asked first: it tells most names apart.
#[tactic(auto, unfolding(crate::specs::Counted::other_words, rules::specs::Choice::some))]
fn other_than(dir: &[u8], low: u64, high: u64, j: Dirent) -> bool
    ensures { result ≡ other_words dir.now low high j.0 }
{
    low != low_at(dir, j) || high != high_at(dir, j) || is_empty(dir, j)
}

fn name_new(dir: &[u8], i: Dirent) -> bool
    ensures { result ≡ all (other_than dir.now i.0) 0 i.0 }
{
    let low = low_at(dir, i);
    let high = high_at(dir, i);
    (0..i.0).all(|j| other_than(dir, low, high, Dirent(j)))
}

// An empty entry differs from all.
#[tactic(auto, using(crate::proofs::Bridge::new_by))]
fn is_new(dir: &[u8], i: Dirent) -> bool
    ensures { result ≡ is_new dir.now i.0 }
{
    is_empty(dir, i) || name_new(dir, i)
}

fn all_new(dir: &[u8]) -> bool
    ensures { result ≡ all (is_new dir.now) 0 DIRENTS }
{
    (0..DIRENTS).all(|i| is_new(dir, Dirent(i)))
}

// A loop, which looks at all entries at once; a chain of `filter` and `count` does not.
fn used_count(dir: &[u8]) -> u32
    ensures { result ≡ count (is_used dir.now) 0 DIRENTS }
{
    let mut n = 0;
    for i in 0..DIRENTS {
        if !is_empty(dir, Dirent(i)) {
            n += 1;
        }
    }
    n
}

// Each entry, and its name among those before it.
#[tactic(auto, unfolding(rules::specs::Sound::entries_sound, rules::specs::Choice::every))]
fn entries_sound(files: &[u32], dir: &[u8]) -> bool
    ensures { result ≡ entries_sound (tab FILE_WIDTH files.now) dir.now }
{
    all_dirents_sound(files, dir) && all_new(dir)
}

// n is the directory's length; what is past the entries is 0.
#[tactic(auto, unfolding(rules::specs::Sound::dirents_sound, rules::specs::Choice::every))]
pub fn dirents_sound(files: &[u32], dir: &[u8], n: u32) -> bool
    ensures { result ≡ dirents_sound (tab FILE_WIDTH files.now) dir.now n }
{
    entries_sound(files, dir) && n == used_count(dir) && all_zero(after(dir, ENTRIES))
}

// No entry has the name "rom": `dir` is the root.
pub fn rom_absent(dir: &[u8]) -> bool
    ensures { result ≡ rom_absent dir.now }
{
    !is_dirent(stored_by(dir, ROM_LOW, 0))
}
