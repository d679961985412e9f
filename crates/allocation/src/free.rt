// The lowest free ones; the one past the last where there is none, which `tables::ids` tells from those there are.
ghost use Rattle.std.specs.Prelude.{◌≡◌};
ghost use Rattle.rules.specs.Layout.{FILE_WIDTH, OPEN_FILE_WIDTH};
ghost use Rattle.rules.specs.Store.{tab, proc_of, desc_of};
ghost use Rattle.rules.specs.Rom.{files_in};
ghost use Rattle.rules.specs.Checks.{slot_free, ofd_free, pid_free, free_slot, free_ofd, free_fd, free_pid};

use crate::used::used_descriptors;
use rules::ids::{Fd, Ofd, Pid, Slot};
use tables::layout::{FILES_SIZE, OPEN_FILES, OPEN_FILES_SIZE, PROCESSES, SLOTS};

#[tactic(auto, unfolding(rules::specs::Checks::slot_free))]
fn slot_free(files: &[u32], s: Slot) -> bool
    ensures { result ≡ slot_free (tab FILE_WIDTH files.now) s.0 }
{
    tables::files::is_free(files, s)
}

// The scan itself.
fn first_free_slot(files: &[u32]) -> Slot
    ensures { result ≡ free_slot (tab FILE_WIDTH files.now) }
{
    Slot(
        (0..SLOTS)
            .find(|s| slot_free(files, Slot(*s)))
            .unwrap_or(SLOTS),
    )
}

// A table that is whole is handed on at its known length: no slot is then tested against its end. Only what is stored is looked at: the factory part's
// files have no slot.
pub fn free_slot(files: &[u32]) -> Slot
    ensures { result ≡ free_slot (files_in files.now) }
{
    if FILES_SIZE <= files.len() {
        return first_free_slot(&files[0..FILES_SIZE]);
    }
    first_free_slot(files)
}

#[tactic(auto, unfolding(rules::specs::Checks::ofd_free))]
fn ofd_free(open_files: &[u32], e: Ofd) -> bool
    ensures { result ≡ ofd_free (tab OPEN_FILE_WIDTH open_files.now) e.0 }
{
    tables::open_files::references(open_files, e) == 0
}

fn first_free_ofd(open_files: &[u32]) -> Ofd
    ensures { result ≡ free_ofd (tab OPEN_FILE_WIDTH open_files.now) }
{
    Ofd(
        (0..OPEN_FILES)
            .find(|e| ofd_free(open_files, Ofd(*e)))
            .unwrap_or(OPEN_FILES),
    )
}

// As `free_slot`.
pub fn free_ofd(open_files: &[u32]) -> Ofd
    ensures { result ≡ free_ofd (tab OPEN_FILE_WIDTH open_files.now) }
{
    if OPEN_FILES_SIZE <= open_files.len() {
        return first_free_ofd(&open_files[0..OPEN_FILES_SIZE]);
    }
    first_free_ofd(open_files)
}

// The zeros below the lowest bit that is not set; eight where all are, which callers refuse with 13.
pub fn free_fd(processes: &[u32], p: Pid) -> Fd
    ensures { result ≡ free_fd (desc_of processes.now) p }
{
    let lowest = u8::trailing_zeros(!used_descriptors(processes, p)) as u8;
    Fd(lowest)
}

#[tactic(auto, unfolding(rules::specs::Checks::pid_free))]
fn pid_free(processes: &[u32], q: Pid) -> bool
    ensures { result ≡ pid_free (proc_of processes.now) q.0 }
{
    tables::processes::used(processes, q) == 0
}

pub fn free_pid(processes: &[u32]) -> Pid
    ensures { result ≡ free_pid (proc_of processes.now) }
{
    Pid(
        (0..PROCESSES)
            .find(|q| pid_free(processes, Pid(*q)))
            .unwrap_or(PROCESSES),
    )
}
