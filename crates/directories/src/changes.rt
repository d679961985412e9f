// What a directory becomes that gains or loses a name, or that has one renamed; whether it has the name, and its free entries.
ghost use Rattle.std.specs.Prelude.{◌≡◌};
ghost use Rattle.rules.specs.Layout.{FILE_VERSION};
ghost use Rattle.rules.specs.Store.{up};
ghost use Rattle.tables.specs.Tables.{shown_in};
ghost use Rattle.rules.specs.Rom.{files_in};
ghost use Rattle.rules.specs.Directories.{free_dirent};
ghost use Rattle.rules.specs.Checks.{is_absent, gains, loses, renames};

use crate::entries::free_dirent;
use rules::decision::{DirChange, Location};
use rules::ids::{Dirent, Slot};
use tables::files::shown;
use tables::ids::is_entry;
use tables::lent::Tables;
use tables::numbers::up_one;

// The entry of a name in its parent is past the entries: the name is missing.
pub fn is_absent(at: Location) -> bool
    ensures { result ≡ is_absent at }
{
    !is_entry(at.dirent)
}

// The lowest free entry of the directory in slot d.
pub fn free_in(t: &Tables, d: Slot) -> Dirent
    ensures { result ≡ free_dirent (shown_in t.now d.0) }
{
    free_dirent(shown(t.files, t.contents, d))
}

fn change(files: &[u32], d: Slot, i: Dirent, length: u32) -> DirChange
    ensures { result ≡ record { dir = d; dirent = i; length = length; version = up (files_in files.now d.0 FILE_VERSION) } }
{
    DirChange {
        dir: d,
        dirent: i,
        length: length,
        version: up_one(rom::seen::version(files, d)),
    }
}

// A directory that gains a name in entry i.
pub fn gaining(files: &[u32], d: Slot, i: Dirent) -> DirChange
    ensures { result ≡ gains (files_in files.now) d i }
{
    change(files, d, i, up_one(rom::seen::length(files, d)))
}

// A directory that loses the name in entry i.
pub fn losing(files: &[u32], d: Slot, i: Dirent) -> DirChange
    ensures { result ≡ loses (files_in files.now) d i }
{
    change(files, d, i, rom::seen::length(files, d).saturating_sub(1))
}

// A directory of which the name in entry i changes.
pub fn renaming(files: &[u32], d: Slot, i: Dirent) -> DirChange
    ensures { result ≡ renames (files_in files.now) d i }
{
    change(files, d, i, rom::seen::length(files, d))
}
