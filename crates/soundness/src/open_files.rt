// The open files.
ghost use Rattle.std.specs.Prelude.{◌≡◌};
ghost use Rattle.rules.specs.Scan.{all};
ghost use Rattle.rules.specs.Layout.{OPEN_FILE_WIDTH, OPEN_FILES, FILE_WIDTH};
ghost use Rattle.rules.specs.Store.{tab};
ghost use Rattle.tables.specs.Tables.{stored, open_in, desc_in};
ghost use Rattle.rules.specs.Sound.{open_free, on_plain_file, open_used, open_sound, opens_within};
ghost use Rattle.soundness.specs.Counted.{open_sound_by};

use counts::count::count_held;
use rom::part::prompt_count;
use rules::ids::Ofd;
use rules::rights::OpenMode;
use tables::files::is_plain;
use tables::ids::is_slot;
use tables::layout::{LENGTH_MAX, OPEN_FILES, SLOTS};
use tables::lent::Tables;
use tables::open_files::{mode, offset, references, slot_of};
use tables::words::get_or;

// Of descriptors: what holds nothing is 0, what holds open file e is e + 1.
const HELD: usize = (OPEN_FILES as usize) + 1;

#[tactic(auto, unfolding(rules::specs::Sound::open_free, rules::specs::Choice::every))]
fn open_free(open_files: &[u32], e: Ofd) -> bool
    ensures { result ≡ open_free (tab OPEN_FILE_WIDTH open_files.now) e.0 }
{
    slot_of(open_files, e).0 == 0 && mode(open_files, e).0 == 0 && offset(open_files, e) == 0
}

// Open file e is on a plain file, or on a prompt and only read.
#[tactic(auto, unfolding(rules::specs::Sound::on_plain_file))]
fn on_plain_file(files: &[u32], open_files: &[u32], e: Ofd) -> bool
    ensures { result ≡ on_plain_file (tab FILE_WIDTH files.now) (tab OPEN_FILE_WIDTH open_files.now) e.0 }
{
    let s = slot_of(open_files, e);
    if is_slot(s) {
        is_plain(files, s)
    } else {
        mode(open_files, e).0 == OpenMode::READ.0
    }
}

#[tactic(auto, unfolding(rules::specs::Sound::open_used, rules::specs::Choice::every))]
fn open_used(files: &[u32], open_files: &[u32], e: Ofd) -> bool
    ensures { result ≡ open_used (tab FILE_WIDTH files.now) (tab OPEN_FILE_WIDTH open_files.now) e.0 }
{
    on_plain_file(files, open_files, e)
        && OpenMode::kept(mode(open_files, e).0)
        && offset(open_files, e) <= LENGTH_MAX
}

// A free open file is all zero, any other is on a plain file.
#[tactic(auto, unfolding(crate::specs::Counted::open_sound_by, rules::specs::Choice::every))]
fn open_sound(files: &[u32], open_files: &[u32], held: &[u32], e: Ofd) -> bool
    ensures { result ≡ open_sound_by (tab FILE_WIDTH files.now) (tab OPEN_FILE_WIDTH open_files.now) held.now e.0 }
{
    let n = references(open_files, e);
    n == get_or(held, (e.0 as usize) + 1, 0)
        && if n == 0 {
            open_free(open_files, e)
        } else {
            open_used(files, open_files, e)
        }
}

fn all_open_files_sound(files: &[u32], open_files: &[u32], held: &[u32]) -> bool
    ensures { result ≡ all (open_sound_by (tab FILE_WIDTH files.now) (tab OPEN_FILE_WIDTH open_files.now) held.now) 0 OPEN_FILES }
{
    (0..OPEN_FILES).all(|e| open_sound(files, open_files, held, Ofd(e)))
}

pub fn open_files_sound(t: &Tables) -> bool
    ensures { result ≡ all (open_sound (stored t.now) (open_in t.now) (desc_in t.now)) 0 OPEN_FILES }
{
    let mut held = [0; HELD];
    count_held(t.processes, &mut held);
    all_open_files_sound(t.files, t.open_files, &held)
}

// No open file is past the last prompt, and the prompts are counted once.
pub fn opens_within(open_files: &[u32], rom: &[u8]) -> bool
    ensures { result ≡ opens_within rom.now (tab OPEN_FILE_WIDTH open_files.now) }
{
    let end = SLOTS + prompt_count(rom);
    (0..OPEN_FILES).all(|e| slot_of(open_files, Ofd(e)).0 < end)
}
