// A directory's entries, 16 of 16 bytes: the name, the slot, 0. `dir` is what the view shows of its slot.
ghost use Rattle.std.specs.Prelude.{◌≡◌};
ghost use Rattle.rules.specs.Directories.{dirent_at, dirent_slot, is_empty, is_padding};
ghost use Rattle.rules.specs.Store.{slot};
ghost use Rattle.tables.specs.NameWords.{low_word, high_word};

use crate::layout::{DIRENT_WIDTH, NAME};
use crate::name_words::{high_word, low_word};
use crate::parts::after;
use crate::words::get_or;
use rules::ids::{Dirent, Slot};

// Entry i from its first byte on.
pub fn dirent_at(dir: &[u8], i: Dirent) -> &[u8]
    ensures { result.now ≡ dirent_at dir.now i.0 }
{
    after(dir, DIRENT_WIDTH * (i.0 as usize))
}

// The slot that entry i names, 0 where it is empty.
pub fn dirent_slot(dir: &[u8], i: Dirent) -> Slot
    ensures { result ≡ slot (dirent_slot dir.now i.0) }
{
    Slot(get_or(dirent_at(dir, i), NAME, 0) as u32)
}

pub fn is_empty(dir: &[u8], i: Dirent) -> bool
    ensures { result ≡ is_empty dir.now i.0 }
{
    dirent_slot(dir, i).0 == 0
}

// Byte k of a name is 0.
pub fn is_padding(name: &[u8], k: usize) -> bool
    ensures { result ≡ is_padding name.now k }
{
    get_or(name, k, 0) == 0
}

// The words of the name of entry i.
pub fn low_at(dir: &[u8], i: Dirent) -> u64
    ensures { result ≡ low_word (dirent_at dir.now i.0) }
{
    low_word(dirent_at(dir, i))
}

pub fn high_at(dir: &[u8], i: Dirent) -> u64
    ensures { result ≡ high_word (dirent_at dir.now i.0) }
{
    high_word(dirent_at(dir, i))
}
