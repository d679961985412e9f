// An effect is carried out on the tables. Exit and fork go through the eight descriptors, each on the tables as they then are.
ghost use Rattle.std.specs.Prelude.{◌≡◌, ℕ, ◌+◌, ◌*◌, eqb, get_or, List, [], ◌∷◌};
ghost use Rattle.rules.specs.Layout.{PROCESS_WIDTH, PROCESS_DESCRIPTOR};
ghost use Rattle.rules.specs.Store.{store, apply_all};
ghost use Rattle.rules.specs.Store as change;
ghost use Rattle.rules.specs.Effects.{shared, shared_all, released, released_all, fork_changes, carry_out};
ghost use Rattle.tables.specs.Tables.{asked};

use allocation::release::release;
use allocation::share::share;
use descriptor_effects::open_files::{
    close_descriptor, duplicate_descriptor as duplicate, move_offset, open_file, open_truncated,
    share_descriptor,
};
use descriptor_effects::processes::{free_process, make_process, relabel_process};
use file_effects::files::{change_bits, write_bytes};
use file_effects::names::{
    create_file, link_file, make_symlink, remove_directory, rename_entry, transfer_entry,
    unlink_file,
};
use rules::decision::Effect;
use rules::ids::{Fd, Pid};
use rules::request::Subject;
use tables::layout::{DESCRIPTORS, PROCESS_DESCRIPTOR, PROCESS_WIDTH};
use tables::lent::Call;
use tables::words::get_or;

// The word of a descriptor is 0: it holds nothing.
fn holds_nothing(processes: &[u32], p: Pid, i: Fd) -> bool
    ensures { result ≡ eqb (get_or processes.now (PROCESS_WIDTH * p.0 + (PROCESS_DESCRIPTOR + i.0)) 0) 0 }
{
    get_or(
        processes,
        PROCESS_WIDTH * (p.0 as usize) + (PROCESS_DESCRIPTOR + (i.0 as usize)),
        0,
    ) == 0
}

// One descriptor of a process that ends. What it frees is of the store, so that it is decided alike on what is seen and on what is stored.
fn release_held(
    files: &mut [u32],
    contents: &mut [u8],
    open_files: &mut [u32],
    processes: &mut [u32],
    p: Pid,
    i: Fd,
)
    ensures { store files.new contents.new open_files.new processes.new ≡ released p i.0 (store files.old contents.old open_files.old processes.old) }
{
    let r = release(files, open_files, processes, p, i);
    close_descriptor(files, contents, open_files, processes, p, i, r);
}

// The same, and quicker where nothing is held: there nothing changes.
fn release_one(
    files: &mut [u32],
    contents: &mut [u8],
    open_files: &mut [u32],
    processes: &mut [u32],
    p: Pid,
    i: Fd,
)
    ensures { store files.new contents.new open_files.new processes.new ≡ released p i.0 (store files.old contents.old open_files.old processes.old) }
{
    if !holds_nothing(processes, p, i) {
        release_held(files, contents, open_files, processes, p, i);
    }
}

fn release_all(
    files: &mut [u32],
    contents: &mut [u8],
    open_files: &mut [u32],
    processes: &mut [u32],
    p: Pid,
)
    ensures { store files.new contents.new open_files.new processes.new ≡ released_all p (store files.old contents.old open_files.old processes.old) }
{
    for i in 0..DESCRIPTORS {
        release_one(files, contents, open_files, processes, p, Fd(i));
    }
}

// One descriptor of a child.
fn share_one(open_files: &mut [u32], processes: &mut [u32], p: Pid, q: Pid, i: Fd)
    ensures { (F C : List ℕ) → store F C open_files.new processes.new ≡ shared p q i.0 (store F C open_files.old processes.old) }
{
    let s = share(open_files, processes, p, i);
    share_descriptor(open_files, processes, q, i, s);
}

fn share_all(open_files: &mut [u32], processes: &mut [u32], p: Pid, q: Pid)
    ensures { (F C : List ℕ) → store F C open_files.new processes.new ≡ shared_all p q (store F C open_files.old processes.old) }
{
    for i in 0..DESCRIPTORS {
        share_one(open_files, processes, p, q, Fd(i));
    }
}

// A child, with its parent's descriptors.
fn fork(open_files: &mut [u32], processes: &mut [u32], p: Pid, q: Pid, who: Subject)
    ensures { (F C : List ℕ) → store F C open_files.new processes.new ≡ apply_all (fork_changes q who) (shared_all p q (store F C open_files.old processes.old)) }
{
    share_all(open_files, processes, p, q);
    make_process(processes, q, who);
}

// A process ends.
fn exit(
    files: &mut [u32],
    contents: &mut [u8],
    open_files: &mut [u32],
    processes: &mut [u32],
    p: Pid,
)
    ensures { store files.new contents.new open_files.new processes.new ≡ apply_all (change.proc_zero p.0 ∷ []) (released_all p (store files.old contents.old open_files.old processes.old)) }
{
    release_all(files, contents, open_files, processes, p);
    free_process(processes, p);
}

// What an effect does.
pub fn carry_out(
    files: &mut [u32],
    contents: &mut [u8],
    open_files: &mut [u32],
    processes: &mut [u32],
    call: &Call,
    e: Effect,
)
    ensures { (buffer : List ℕ) → store files.new contents.new open_files.new processes.new ≡ carry_out (asked call.now buffer) e (store files.old contents.old open_files.old processes.old) }
{
    let p = call.request.process;
    let path = call.path;
    let data = call.data;
    match e {
        Effect::Nothing => {}
        Effect::Opened(n) => open_file(open_files, processes, p, n),
        Effect::Truncated(n, r) => open_truncated(files, contents, open_files, processes, p, n, r),
        Effect::Created(d, s, r) => create_file(files, contents, path, d, s, r),
        Effect::Unlinked(d, u) => unlink_file(files, contents, d, u),
        Effect::Removed(d, s, r) => remove_directory(files, contents, d, s, r),
        Effect::Linked(d, s, n) => link_file(files, contents, data, d, s, n),
        Effect::BitsChanged(s, b) => change_bits(files, s, b),
        Effect::Closed(i, r) => close_descriptor(files, contents, open_files, processes, p, i, r),
        Effect::Stored(w) => write_bytes(files, contents, open_files, data, w),
        Effect::Moved(o, at) => move_offset(open_files, o, at),
        Effect::Duplicated(i, o, n) => duplicate(open_files, processes, p, i, o, n),
        Effect::Forked(q, who) => fork(open_files, processes, p, q, who),
        Effect::Exited => exit(files, contents, open_files, processes, p),
        Effect::Relabelled(l) => relabel_process(processes, p, l),
        Effect::Symlinked(d, s, r) => make_symlink(files, contents, path, data, d, s, r),
        Effect::Renamed(d, s) => rename_entry(files, contents, data, d, s),
        Effect::Transferred(d, to, s) => transfer_entry(files, contents, data, d, to, s),
    }
}
