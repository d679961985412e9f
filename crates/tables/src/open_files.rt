// The open files, 32 records of 4 words.
ghost use Rattle.std.specs.Prelude.{◌≡◌, not, ◌==◌};
ghost use Rattle.rules.specs.Layout.{OPEN_FILE_WIDTH, OPEN_SLOT, OPEN_MODE, OPEN_OFFSET, OPEN_REFERENCES};
ghost use Rattle.rules.specs.Store.{tab, slot, mode_at, is_on, open_but};

use crate::layout::{
    OPEN_FILE_WIDTH, OPEN_FILES, OPEN_MODE, OPEN_OFFSET, OPEN_REFERENCES, OPEN_SLOT,
};
use crate::words::get_or;
use rules::ids::{Ofd, Slot};
use rules::rights::OpenMode;

pub fn slot_of(open_files: &[u32], e: Ofd) -> Slot
    ensures { result ≡ slot (tab OPEN_FILE_WIDTH open_files.now e.0 OPEN_SLOT) }
{
    Slot(get_or(open_files, OPEN_FILE_WIDTH * (e.0 as usize) + OPEN_SLOT, 0))
}

pub fn mode(open_files: &[u32], e: Ofd) -> OpenMode
    ensures { result ≡ mode_at (tab OPEN_FILE_WIDTH open_files.now e.0 OPEN_MODE) }
{
    OpenMode(get_or(open_files, OPEN_FILE_WIDTH * (e.0 as usize) + OPEN_MODE, 0))
}

pub fn offset(open_files: &[u32], e: Ofd) -> u32
    ensures { result ≡ tab OPEN_FILE_WIDTH open_files.now e.0 OPEN_OFFSET }
{
    get_or(
        open_files,
        OPEN_FILE_WIDTH * (e.0 as usize) + OPEN_OFFSET,
        0,
    )
}

pub fn references(open_files: &[u32], e: Ofd) -> u32
    ensures { result ≡ tab OPEN_FILE_WIDTH open_files.now e.0 OPEN_REFERENCES }
{
    get_or(
        open_files,
        OPEN_FILE_WIDTH * (e.0 as usize) + OPEN_REFERENCES,
        0,
    )
}

fn is_held(open_files: &[u32], e: Ofd) -> bool
    ensures { result ≡ not (tab OPEN_FILE_WIDTH open_files.now e.0 OPEN_REFERENCES == 0) }
{
    references(open_files, e) != 0
}

fn has_slot(open_files: &[u32], e: Ofd, s: Slot) -> bool
    ensures { result ≡ (tab OPEN_FILE_WIDTH open_files.now e.0 OPEN_SLOT == s.0) }
{
    slot_of(open_files, e).0 == s.0
}

// Open file e, another than x, is on slot s.
fn is_on(open_files: &[u32], x: Ofd, s: Slot, e: Ofd) -> bool
    ensures { result ≡ is_on (tab OPEN_FILE_WIDTH open_files.now) x s e.0 }
{
    let other = e.0 != x.0;
    if !other {
        return false;
    }
    if !is_held(open_files, e) {
        return false;
    }
    has_slot(open_files, e, s)
}

// Slot s is open, but for open file x.
pub fn open_but(open_files: &[u32], x: Ofd, s: Slot) -> bool
    ensures { result ≡ open_but (tab OPEN_FILE_WIDTH open_files.now) x s }
{
    (0..OPEN_FILES).any(|e| is_on(open_files, x, s, Ofd(e)))
}
