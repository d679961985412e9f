// Everything that must be counted, counted once: a pass over the entries of all directories, and one over the descriptors.
ghost use Rattle.std.specs.Prelude.{◌≡◌, get_or, set};
ghost use Rattle.rules.specs.Scan.{fold};
ghost use Rattle.rules.specs.Layout.{SLOTS, DIRENTS, PROCESSES};
ghost use Rattle.rules.specs.Store.{tree, shown_of, desc_of, up};
ghost use Rattle.counts.specs.Counts.{counted, claimed, entry_counted, slot_counted, entry_claimed, slot_claimed, desc_counted, proc_counted};

use rules::ids::{Dirent, Fd, Pid, Slot};
use tables::directories::dirent_slot;
use tables::files::{is_directory, shown};
use tables::layout::{DESCRIPTORS, DIRENTS, PROCESSES, SLOTS};
use tables::numbers::up_one;
use tables::processes::descriptor;
use tables::words::{get_or, put};

fn raise(counts: &mut [u32], k: u32)
    ensures { counts.new ≡ set counts.old k (up (get_or counts.old k 0)) }
{
    put(counts, k as usize, up_one(get_or(counts, k as usize, 0)));
}

// One more at k, where k is not 0. k is a word of a table: the slot that an entry names, or what a descriptor holds.
#[tactic(auto, unfolding(crate::specs::Counts::counted))]
fn count_one(counts: &mut [u32], k: u32)
    ensures { counts.new ≡ counted k counts.old }
{
    if k != 0 {
        raise(counts, k);
    }
}

// Directory d stands at slot s, where s is not 0.
#[tactic(auto, unfolding(crate::specs::Counts::claimed))]
fn claim(parents: &mut [u32], s: Slot, d: Slot)
    ensures { parents.new ≡ claimed s.0 d.0 parents.old }
{
    if s.0 != 0 {
        put(parents, s.0 as usize, d.0);
    }
}

// Entry i of directory d.
fn count_entry(links: &mut [u32], parents: &mut [u32], dir: &[u8], d: Slot, i: Dirent)
    ensures { (links.new ≡ entry_counted dir.now i.0 links.old) × (parents.new ≡ entry_claimed dir.now d.0 i.0 parents.old) }
{
    let s = dirent_slot(dir, i);
    count_one(links, s.0);
    claim(parents, s, d);
}

fn count_directory(links: &mut [u32], parents: &mut [u32], dir: &[u8], d: Slot)
    ensures { (links.new ≡ fold (entry_counted dir.now) 0 DIRENTS links.old) × (parents.new ≡ fold (entry_claimed dir.now d.0) 0 DIRENTS parents.old) }
{
    for i in (0..DIRENTS).rev() {
        count_entry(links, parents, dir, d, Dirent(i));
    }
}

fn count_shown(files: &[u32], contents: &[u8], links: &mut [u32], parents: &mut [u32], d: Slot)
    ensures { (links.new ≡ fold (entry_counted (shown_of files.now contents.now d.0)) 0 DIRENTS links.old) × (parents.new ≡ fold (entry_claimed (shown_of files.now contents.now d.0) d.0) 0 DIRENTS parents.old) }
{
    count_directory(links, parents, shown(files, contents, d), d);
}

#[tactic(auto, unfolding(crate::specs::Counts::slot_counted, crate::specs::Counts::slot_claimed))]
fn count_slot(files: &[u32], contents: &[u8], links: &mut [u32], parents: &mut [u32], d: Slot)
    ensures { (links.new ≡ slot_counted (tree files.now contents.now) d.0 links.old) × (parents.new ≡ slot_claimed (tree files.now contents.now) d.0 parents.old) }
{
    if is_directory(files, d) {
        count_shown(files, contents, links, parents, d);
    }
}

// From the last directory to the first: the lowest is the last to claim a slot.
pub fn count_links(files: &[u32], contents: &[u8], links: &mut [u32], parents: &mut [u32])
    ensures { (links.new ≡ fold (slot_counted (tree files.now contents.now)) 0 SLOTS links.old) × (parents.new ≡ fold (slot_claimed (tree files.now contents.now)) 0 SLOTS parents.old) }
{
    for d in (0..SLOTS).rev() {
        count_slot(files, contents, links, parents, Slot(d));
    }
}

fn count_descriptor(processes: &[u32], held: &mut [u32], p: Pid, i: Fd)
    ensures { held.new ≡ desc_counted (desc_of processes.now) p.0 i.0 held.old }
{
    count_one(held, descriptor(processes, p, i));
}

fn count_process(processes: &[u32], held: &mut [u32], p: Pid)
    ensures { held.new ≡ proc_counted (desc_of processes.now) p.0 held.old }
{
    for i in (0..DESCRIPTORS).rev() {
        count_descriptor(processes, held, p, Fd(i));
    }
}

pub fn count_held(processes: &[u32], held: &mut [u32])
    ensures { held.new ≡ fold (proc_counted (desc_of processes.now)) 0 PROCESSES held.old }
{
    for p in (0..PROCESSES).rev() {
        count_process(processes, held, Pid(p));
    }
}
