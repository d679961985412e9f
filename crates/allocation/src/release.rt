// What becomes of the open file of a descriptor that is emptied, and of its slot.
ghost use Rattle.std.specs.Prelude.{◌≡◌, ◌-◌};
ghost use Rattle.rules.specs.Choice.{every};
ghost use Rattle.rules.specs.Layout.{OPEN_FILE_WIDTH};
ghost use Rattle.rules.specs.Store.{tab, desc_of, is_slot};
ghost use Rattle.rules.specs.Rom.{files_in};
ghost use Rattle.rules.specs.Checks.{ofd_held, closing, dropping, releasing};
ghost use Rattle.rules.specs.declared.decision.Release.TheVariants as release;

use crate::held::{is_held, ofd_held};
use crate::last::{freed_record, none_but};
use rules::decision::Release;
use rules::ids::{Fd, Ofd, Pid, Slot};
use tables::ids::is_slot;
use tables::open_files::{references, slot_of};

// Open file e on slot s goes, and the file with it where it is of the store, and has no name and no other open file.
#[tactic(auto, unfolding(rules::specs::Checks::closing, rules::specs::Choice::every))]
fn close_last(files: &[u32], open_files: &[u32], e: Ofd, s: Slot) -> Release
    ensures { result ≡ closing (files_in files.now) (tab OPEN_FILE_WIDTH open_files.now) e s }
{
    if is_slot(s) && rom::seen::links(files, s) == 0 && none_but(open_files, e, s) {
        Release::Freed(e, s, freed_record(files, s))
    } else {
        Release::Gone(e)
    }
}

// Open file e loses a reference.
#[tactic(auto, unfolding(rules::specs::Checks::dropping))]
fn drop_one(files: &[u32], open_files: &[u32], e: Ofd) -> Release
    ensures { result ≡ dropping (files_in files.now) (tab OPEN_FILE_WIDTH open_files.now) e }
{
    let n = references(open_files, e);
    if 1 < n {
        Release::Kept(e, n - 1)
    } else {
        close_last(files, open_files, e, slot_of(open_files, e))
    }
}

// Descriptor i is emptied. A close and the turns of an exit make one piece with it.
#[inline]
#[tactic(auto, unfolding(rules::specs::Checks::releasing))]
pub fn release(files: &[u32], open_files: &[u32], processes: &[u32], p: Pid, i: Fd) -> Release
    ensures { result ≡ releasing (files_in files.now) (tab OPEN_FILE_WIDTH open_files.now) (desc_of processes.now) p i }
{
    if is_held(processes, p, i) {
        drop_one(files, open_files, ofd_held(processes, p, i))
    } else {
        Release::Nothing
    }
}
