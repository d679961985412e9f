// Whole rows of the tables, and words that several calls write.
ghost use Rattle.std.specs.Prelude.{◌≡◌, List, [], ◌∷◌, ℕ, ◌+◌, ◌*◌, ◌%◌, set};
ghost use Rattle.std.proofs.lemmas.List.Edits.{sets};
ghost use Rattle.rules.specs.Layout.{FILE_WIDTH, FILE_LENGTH, FILE_VERSION, BLOCK, DIRENT_WIDTH, NAME, OPEN_FILE_WIDTH, PROCESS_WIDTH, PROCESS_DESCRIPTOR};
ghost use Rattle.rules.specs.Store.{store, puts, clear_to, apply_all, words};
ghost use Rattle.rules.specs.Directories.{padded, dirent};
ghost use Rattle.rules.specs.Effects.{desc_word};

use rules::decision::{DirChange, Record};
use rules::ids::{Dirent, Fd, Ofd, Pid, Slot};
use rules::rights::OpenMode;
use tables::layout::{
    BLOCK, DIRENT_WIDTH, FILE_BITS, FILE_GROUP, FILE_KIND, FILE_LABEL, FILE_LENGTH, FILE_LINKS,
    FILE_OWNER, FILE_VERSION, FILE_WIDTH, NAME, OPEN_FILE_WIDTH, OPEN_MODE, OPEN_OFFSET,
    OPEN_REFERENCES, OPEN_SLOT, PROCESS_DESCRIPTOR, PROCESS_WIDTH,
};
use tables::numbers::up_one;
use tables::words::{fill, get_or, put};

// How many values a byte has.
const BYTE: u32 = 256;

// A slot's record.
pub fn put_record(files: &mut [u32], s: Slot, r: Record)
    ensures { files.new ≡ puts FILE_WIDTH files.old s.0 0 (words r) }
{
    let at = FILE_WIDTH * (s.0 as usize);
    let bits = r.bits;
    put(files, at + FILE_KIND, r.kind);
    put(files, at + FILE_OWNER, r.owner);
    put(files, at + FILE_GROUP, r.group);
    put(files, at + FILE_BITS, bits.0);
    put(files, at + FILE_LABEL, r.label);
    put(files, at + FILE_LENGTH, r.length);
    put(files, at + FILE_LINKS, r.links);
    put(files, at + FILE_VERSION, r.version);
}

// A slot's record, and all its bytes 0.
pub fn clear_slot(files: &mut [u32], contents: &mut [u8], s: Slot, r: Record)
    ensures { (E P : List ℕ) → store files.new contents.new E P ≡ apply_all (clear_to s.0 (words r) ∷ []) (store files.old contents.old E P) }
{
    put_record(files, s, r);
    fill(contents, BLOCK * (s.0 as usize) + 0, BLOCK, 0);
}

// The length and version of a directory whose names change.
pub fn put_directory(files: &mut [u32], d: DirChange)
    ensures { files.new ≡ set (set files.old (FILE_WIDTH * d.dir.0 + FILE_LENGTH) d.length) (FILE_WIDTH * d.dir.0 + FILE_VERSION) d.version }
{
    let dir = d.dir;
    let at = FILE_WIDTH * (dir.0 as usize);
    put(files, at + FILE_LENGTH, d.length);
    put(files, at + FILE_VERSION, d.version);
}

// An open file at offset 0 that one descriptor holds.
pub fn put_open(open_files: &mut [u32], e: Ofd, s: Slot, mode: OpenMode)
    ensures { open_files.new ≡ puts OPEN_FILE_WIDTH open_files.old e.0 0 (s.0 ∷ mode.0 ∷ 0 ∷ 1 ∷ []) }
{
    let at = OPEN_FILE_WIDTH * (e.0 as usize);
    put(open_files, at + OPEN_SLOT, s.0);
    put(open_files, at + OPEN_MODE, mode.0);
    put(open_files, at + OPEN_OFFSET, 0);
    put(open_files, at + OPEN_REFERENCES, 1);
}

// The word of a descriptor.
fn put_descriptor(processes: &mut [u32], p: Pid, i: Fd, x: u32)
    ensures { processes.new ≡ set processes.old (PROCESS_WIDTH * p.0 + (PROCESS_DESCRIPTOR + i.0)) x }
{
    put(
        processes,
        PROCESS_WIDTH * (p.0 as usize) + (PROCESS_DESCRIPTOR + (i.0 as usize)),
        x,
    );
}

// A descriptor holds open file e.
pub fn put_held(processes: &mut [u32], p: Pid, i: Fd, e: Ofd)
    ensures { processes.new ≡ set processes.old (PROCESS_WIDTH * p.0 + (PROCESS_DESCRIPTOR + i.0)) (desc_word e) }
{
    put_descriptor(processes, p, i, up_one(e.0));
}

// A descriptor holds nothing.
pub fn put_empty(processes: &mut [u32], p: Pid, i: Fd)
    ensures { processes.new ≡ set processes.old (PROCESS_WIDTH * p.0 + (PROCESS_DESCRIPTOR + i.0)) 0 }
{
    put_descriptor(processes, p, i, 0);
}

// The name into entry i of directory d, padded to 14 bytes with 0.
fn put_name(contents: &mut [u8], d: Slot, i: Dirent, name: &[u8])
    ensures { contents.new ≡ sets contents.old (BLOCK * d.0 + DIRENT_WIDTH * i.0) (padded NAME name.now) }
{
    let at = BLOCK * (d.0 as usize) + DIRENT_WIDTH * (i.0 as usize);
    for k in 0..NAME {
        put(contents, at + k, get_or(name, k, 0));
    }
}

// A slot as a byte of a directory entry.
fn slot_byte(s: Slot) -> u8
    ensures { result ≡ s.0 % 256 }
{
    (s.0 % BYTE) as u8
}

// Entry i of directory d: the name, the slot, 0.
pub fn put_dirent(contents: &mut [u8], d: Slot, i: Dirent, name: &[u8], s: Slot)
    ensures { contents.new ≡ sets contents.old (BLOCK * d.0 + DIRENT_WIDTH * i.0) (dirent name.now s) }
{
    let at = BLOCK * (d.0 as usize) + DIRENT_WIDTH * (i.0 as usize);
    put_name(contents, d, i, name);
    put(contents, at + NAME, slot_byte(s));
    put(contents, at + (NAME + 1), 0);
}
