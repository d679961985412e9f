// Whether a number is that of one there is: a search gives the number past the last where it finds none.
ghost use Rattle.std.specs.Prelude.{◌≡◌};
ghost use Rattle.rules.specs.Store.{is_slot, is_pid, is_fd, is_ofd, is_dirent, is_entry};

use crate::layout::{DESCRIPTORS, DIRENTS, ENTRIES, OPEN_FILES, PROCESSES, SLOTS};
use rules::ids::{Dirent, Fd, Ofd, Pid, Slot};

pub fn is_slot(s: Slot) -> bool
    ensures { result ≡ is_slot s }
{
    s.0 < SLOTS
}

pub fn is_pid(p: Pid) -> bool
    ensures { result ≡ is_pid p }
{
    p.0 < PROCESSES
}

pub fn is_fd(i: Fd) -> bool
    ensures { result ≡ is_fd i }
{
    i.0 < DESCRIPTORS
}

pub fn is_ofd(e: Ofd) -> bool
    ensures { result ≡ is_ofd e }
{
    e.0 < OPEN_FILES
}

pub fn is_dirent(i: Dirent) -> bool
    ensures { result ≡ is_dirent i }
{
    i.0 < DIRENTS
}

pub fn is_entry(i: Dirent) -> bool
    ensures { result ≡ is_entry i }
{
    i.0 < ENTRIES
}
