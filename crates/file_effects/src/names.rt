// Names: the entries of directories, and what becomes of a file whose names change.
ghost use Rattle.std.specs.Prelude.{◌≡◌, List, [], ◌∷◌, ℕ};
ghost use Rattle.rules.specs.Store.{store, file_to, bytes_to, apply_all, words};
ghost use Rattle.rules.specs.Paths.{names, last_name};
ghost use Rattle.rules.specs.Effects.{name_changes, unname_changes, create_changes, symlink_changes, link_changes, unnamed_changes, unlink_changes, remove_changes, transfer_changes};

use resolution::paths::last_name;
use rows::rows::{clear_slot, put_directory, put_dirent, put_record};
use rules::decision::{DirChange, Record, Unnamed};
use rules::ids::Slot;
use tables::layout::{BLOCK, DIRENT_WIDTH, FILE_LINKS, FILE_WIDTH};
use tables::words::{copy, fill, put};

// A directory gains a name.
fn add_name(files: &mut [u32], contents: &mut [u8], name: &[u8], s: Slot, d: DirChange)
    ensures { (E P : List ℕ) → store files.new contents.new E P ≡ apply_all (name_changes name.now s d) (store files.old contents.old E P) }
{
    let dir = d.dir;
    let i = d.dirent;
    put_dirent(contents, dir, i, name, s);
    put_directory(files, d);
}

// A directory loses a name.
fn remove_name(files: &mut [u32], contents: &mut [u8], d: DirChange)
    ensures { (E P : List ℕ) → store files.new contents.new E P ≡ apply_all (unname_changes d) (store files.old contents.old E P) }
{
    let dir = d.dir;
    let i = d.dirent;
    fill(
        contents,
        BLOCK * (dir.0 as usize) + DIRENT_WIDTH * (i.0 as usize),
        DIRENT_WIDTH,
        0,
    );
    put_directory(files, d);
}

// A new file or directory, under the last name of the path.
pub fn create_file(
    files: &mut [u32],
    contents: &mut [u8],
    path: &[u8],
    d: DirChange,
    s: Slot,
    r: Record,
)
    ensures { (E P : List ℕ) → store files.new contents.new E P ≡ apply_all (create_changes (last_name (names path.now)) d s r) (store files.old contents.old E P) }
{
    put_record(files, s, r);
    add_name(files, contents, last_name(path), s, d);
}

// A link's record and its text.
fn put_text(files: &mut [u32], contents: &mut [u8], text: &[u8], s: Slot, link: Record)
    ensures { (E P : List ℕ) → store files.new contents.new E P ≡ apply_all (file_to s.0 (words link) ∷ bytes_to s.0 0 text.now ∷ []) (store files.old contents.old E P) }
{
    put_record(files, s, link);
    copy(contents, BLOCK * (s.0 as usize), text);
}

// A link and its text, under the last name of the path.
pub fn make_symlink(
    files: &mut [u32],
    contents: &mut [u8],
    path: &[u8],
    text: &[u8],
    d: DirChange,
    s: Slot,
    r: Record,
)
    ensures { (E P : List ℕ) → store files.new contents.new E P ≡ apply_all (symlink_changes (last_name (names path.now)) text.now d s r) (store files.old contents.old E P) }
{
    put_text(files, contents, text, s, r);
    add_name(files, contents, last_name(path), s, d);
}

// One name more for a file, the last of the path.
pub fn link_file(
    files: &mut [u32],
    contents: &mut [u8],
    path: &[u8],
    d: DirChange,
    s: Slot,
    links: u32,
)
    ensures { (E P : List ℕ) → store files.new contents.new E P ≡ apply_all (link_changes (last_name (names path.now)) d s links) (store files.old contents.old E P) }
{
    put(files, FILE_WIDTH * (s.0 as usize) + FILE_LINKS, links);
    add_name(files, contents, last_name(path), s, d);
}

// A plain file or a link has one name less, or is freed.
fn lose_name(files: &mut [u32], contents: &mut [u8], u: Unnamed)
    ensures { (E P : List ℕ) → store files.new contents.new E P ≡ apply_all (unnamed_changes u) (store files.old contents.old E P) }
{
    match u {
        Unnamed::Kept(s, left) => {
            put(files, FILE_WIDTH * (s.0 as usize) + FILE_LINKS, left);
        }
        Unnamed::Freed(s, freed) => {
            clear_slot(files, contents, s, freed);
        }
    }
}

pub fn unlink_file(files: &mut [u32], contents: &mut [u8], d: DirChange, u: Unnamed)
    ensures { (E P : List ℕ) → store files.new contents.new E P ≡ apply_all (unlink_changes d u) (store files.old contents.old E P) }
{
    remove_name(files, contents, d);
    lose_name(files, contents, u);
}

pub fn remove_directory(files: &mut [u32], contents: &mut [u8], d: DirChange, s: Slot, r: Record)
    ensures { (E P : List ℕ) → store files.new contents.new E P ≡ apply_all (remove_changes d s r) (store files.old contents.old E P) }
{
    remove_name(files, contents, d);
    clear_slot(files, contents, s, r);
}

// Another name in the same entry, the last of the path.
pub fn rename_entry(files: &mut [u32], contents: &mut [u8], path: &[u8], d: DirChange, s: Slot)
    ensures { (E P : List ℕ) → store files.new contents.new E P ≡ apply_all (name_changes (last_name (names path.now)) s d) (store files.old contents.old E P) }
{
    add_name(files, contents, last_name(path), s, d);
}

// A name goes from one directory to another, as the last of the path.
pub fn transfer_entry(
    files: &mut [u32],
    contents: &mut [u8],
    path: &[u8],
    from: DirChange,
    to: DirChange,
    s: Slot,
)
    ensures { (E P : List ℕ) → store files.new contents.new E P ≡ apply_all (transfer_changes (last_name (names path.now)) from to s) (store files.old contents.old E P) }
{
    remove_name(files, contents, from);
    add_name(files, contents, last_name(path), s, to);
}
