// A stored borrowing read: process and descriptor, a byte each, and the count, four bytes.
ghost use Rattle.std.specs.Prelude.{◌≡◌};
ghost use Rattle.rules.specs.Store.{store};
ghost use Rattle.borrow.specs.Lent.{lent_back};
ghost use Rattle.recorded.specs.Borrowed.{borrowed_on, borrowed_tables, record_borrowed};

use crate::digest::digest;
use crate::printing::{print_borrowed, print_digest};
use crate::records::{POLICY_ROOM, Sizes, Stop, Tables, word_at};
use rules::ids::{Fd, Pid};
use tables::parts::upto;
use tables::words::get_or;

// The borrowing read on tables of these sizes; what is past them stays.
fn borrow_part<'a>(
    files: &[u32],
    contents: &'a [u8],
    open_files: &mut [u32],
    processes: &[u32],
    policy: &[u8; POLICY_ROOM],
    rom: &'a [u8],
    sizes: Sizes,
    p: Pid,
    i: Fd,
    count: u32,
    refusal: &mut u32,
) -> &'a [u8]
    ensures { lent_back refusal.new result.now (store files.now contents.now open_files.new processes.now) ≡ borrowed_on sizes policy.now rom.now (store files.now contents.now open_files.old processes.now) p i count }
{
    let f = sizes.files.min(files.len());
    let e = sizes.open_files.min(open_files.len());
    let q = sizes.processes.min(processes.len());
    borrow::read::borrow_read(
        &files[..f],
        upto(contents, sizes.contents),
        &mut open_files[..e],
        &processes[..q],
        upto(policy, sizes.policy),
        rom,
        p,
        i,
        count,
        refusal,
    )
}

// The tables after it; its line is written.
#[tactic(auto, unfolding(crate::specs::Borrowed::borrowed_tables))]
fn make_borrow(s: Tables, p: Pid, i: Fd, count: u32) -> Tables
    ensures { result ≡ borrowed_tables s p i count }
{
    let mut open_files = s.open_files;
    let mut refusal = 0u32;
    let bytes = borrow_part(
        &s.files,
        &s.contents,
        &mut open_files,
        &s.processes,
        &s.policy,
        s.rom.bytes(),
        s.sizes,
        p,
        i,
        count,
        &mut refusal,
    );
    let t = Tables {
        open_files: open_files,
        ..s
    };
    print_borrowed(refusal, bytes);
    print_digest(digest(&t, bytes));
    t
}

#[tactic(auto, unfolding(crate::specs::Borrowed::record_borrowed, crate::specs::Borrowed::is_borrow))]
pub(crate) fn borrow_record(s: Tables, body: &[u8]) -> Result<Tables, Stop>
    ensures { result ≡ record_borrowed body.now s }
{
    if body.len() != 6 {
        return Err(Stop::Broken);
    }
    Ok(make_borrow(
        s,
        Pid(get_or(body, 0, 0)),
        Fd(get_or(body, 1, 0)),
        word_at(body, 2),
    ))
}
