// Open files, and the descriptors that hold them.
ghost use Rattle.std.specs.Prelude.{◌≡◌, List, [], ◌∷◌, ℕ};
ghost use Rattle.rules.specs.Layout.{OPEN_OFFSET};
ghost use Rattle.rules.specs.Store.{store, open_word, apply_all};
ghost use Rattle.rules.specs.Effects.{open_changes, truncate_changes, release_changes, close_changes, duplicate_changes, share_changes};

use rows::rows::{clear_slot, put_empty, put_held, put_open};
use rules::decision::{NewOpen, Record, Release, Shared};
use rules::ids::{Fd, Ofd, Pid};
use tables::layout::{OPEN_FILE_WIDTH, OPEN_OFFSET, OPEN_REFERENCES};
use tables::words::{fill, put};

pub fn open_file(open_files: &mut [u32], processes: &mut [u32], p: Pid, n: NewOpen)
    ensures { (F C : List ℕ) → store F C open_files.new processes.new ≡ apply_all (open_changes p n) (store F C open_files.old processes.old) }
{
    let s = n.slot;
    let mode = n.mode;
    let i = n.fd;
    let new = n.ofd;
    put_open(open_files, new, s, mode);
    put_held(processes, p, i, new);
}

// Opens a file and truncates it.
pub fn open_truncated(
    files: &mut [u32],
    contents: &mut [u8],
    open_files: &mut [u32],
    processes: &mut [u32],
    p: Pid,
    n: NewOpen,
    r: Record,
)
    ensures { store files.new contents.new open_files.new processes.new ≡ apply_all (truncate_changes p n r) (store files.old contents.old open_files.old processes.old) }
{
    let s = n.slot;
    open_file(open_files, processes, p, n);
    clear_slot(files, contents, s, r);
}

// An open file loses a reference; with the last one it goes, and a file without a name goes with it.
fn release_open(files: &mut [u32], contents: &mut [u8], open_files: &mut [u32], r: Release)
    ensures { (P : List ℕ) → store files.new contents.new open_files.new P ≡ apply_all (release_changes r) (store files.old contents.old open_files.old P) }
{
    match r {
        Release::Nothing => {}
        Release::Kept(e, references) => {
            put(
                open_files,
                OPEN_FILE_WIDTH * (e.0 as usize) + OPEN_REFERENCES,
                references,
            );
        }
        Release::Gone(e) => {
            fill(
                open_files,
                OPEN_FILE_WIDTH * (e.0 as usize),
                OPEN_FILE_WIDTH,
                0,
            );
        }
        Release::Freed(e, s, record) => {
            fill(
                open_files,
                OPEN_FILE_WIDTH * (e.0 as usize),
                OPEN_FILE_WIDTH,
                0,
            );
            clear_slot(files, contents, s, record);
        }
    }
}

pub fn close_descriptor(
    files: &mut [u32],
    contents: &mut [u8],
    open_files: &mut [u32],
    processes: &mut [u32],
    p: Pid,
    i: Fd,
    r: Release,
)
    ensures { store files.new contents.new open_files.new processes.new ≡ apply_all (close_changes p i r) (store files.old contents.old open_files.old processes.old) }
{
    put_empty(processes, p, i);
    release_open(files, contents, open_files, r);
}

// One descriptor more for an open file: its offset is shared.
pub fn duplicate_descriptor(
    open_files: &mut [u32],
    processes: &mut [u32],
    p: Pid,
    i: Fd,
    e: Ofd,
    references: u32,
)
    ensures { (F C : List ℕ) → store F C open_files.new processes.new ≡ apply_all (duplicate_changes p i e references) (store F C open_files.old processes.old) }
{
    put_held(processes, p, i, e);
    put(
        open_files,
        OPEN_FILE_WIDTH * (e.0 as usize) + OPEN_REFERENCES,
        references,
    );
}

// A child gets what its parent's descriptor holds.
pub fn share_descriptor(
    open_files: &mut [u32],
    processes: &mut [u32],
    child: Pid,
    i: Fd,
    given: Option<Shared>,
)
    ensures { (F C : List ℕ) → store F C open_files.new processes.new ≡ apply_all (share_changes child i given) (store F C open_files.old processes.old) }
{
    match given {
        None => put_empty(processes, child, i),
        Some(s) => duplicate_descriptor(open_files, processes, child, i, s.ofd, s.references),
    }
}

pub fn move_offset(open_files: &mut [u32], e: Ofd, offset: u32)
    ensures { (F C P : List ℕ) → store F C open_files.new P ≡ apply_all (open_word e.0 OPEN_OFFSET offset ∷ []) (store F C open_files.old P) }
{
    put(
        open_files,
        OPEN_FILE_WIDTH * (e.0 as usize) + OPEN_OFFSET,
        offset,
    );
}
