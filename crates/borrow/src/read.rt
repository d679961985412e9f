// The bytes themselves: a part of the contents or of the factory part, whichever has the file.
ghost use Rattle.std.specs.Prelude.{◌≡◌, List, ℕ, take, drop};
ghost use Rattle.rules.specs.Store.{fixed, store};
ghost use Rattle.rules.specs.Step.{bytes_of, step_borrow};
ghost use Rattle.borrow.specs.Lent.{lent_back, of_outcome};
ghost use Rattle.borrow.specs.Judged.{bytes_lent, moved_on};

use crate::judge::{judge, refusal_of};
use allocation::held::ofd_held;
use descriptor_effects::open_files::move_offset;
use rom::seen::bytes_of;
use rules::decision::{Decision, Grant, Output};
use rules::ids::{Fd, Ofd, Pid, Slot};
use tables::lent::Tables;
use tables::numbers::add;
use tables::parts::{after, upto};

// n bytes of a file.
pub(crate) fn part_of<'a>(contents: &'a [u8], rom: &'a [u8], s: Slot, from: u32, n: u32) -> &'a [u8]
    ensures { result.now ≡ take n (drop from (bytes_of rom.now contents.now s)) }
{
    upto(after(bytes_of(contents, rom, s), from as usize), n as usize)
}

#[tactic(auto, unfolding(crate::specs::Judged::bytes_lent, rules::specs::Step::bytes_out))]
fn bytes_lent<'a>(contents: &'a [u8], rom: &'a [u8], d: Decision) -> &'a [u8]
    ensures { result.now ≡ bytes_lent rom.now contents.now d }
{
    match d {
        Ok(
            Grant {
                output: Output::Bytes(s, from, n),
                ..
            },
        ) => part_of(contents, rom, s, from, n),
        Ok(_) | Err(_) => &contents[0..0],
    }
}

// What is read through open file e moves its offset.
#[tactic(auto, unfolding(crate::specs::Judged::moved_on, crate::specs::Judged::offset_moved))]
pub(crate) fn move_on(open_files: &mut [u32], e: Ofd, d: Decision)
    ensures { (F C P : List ℕ) → store F C open_files.new P ≡ moved_on e d (store F C open_files.old P) }
{
    match d {
        Ok(
            Grant {
                output: Output::Bytes(_, from, n),
                ..
            },
        ) => move_offset(open_files, e, add(from, n)),
        Ok(_) | Err(_) => {}
    }
}

// A borrowing read of up to n bytes. What is handed back are the bytes, and their number is the value; `refusal` is 0 where it is granted.
pub fn borrow_read<'a>(
    files: &[u32],
    contents: &'a [u8],
    open_files: &mut [u32],
    processes: &[u32],
    policy: &[u8],
    rom: &'a [u8],
    p: Pid,
    i: Fd,
    n: u32,
    refusal: &mut u32,
) -> &'a [u8]
    ensures { lent_back refusal.new result.now (store files.now contents.now open_files.new processes.now) ≡ of_outcome (step_borrow (fixed policy.now rom.now) (store files.now contents.now open_files.old processes.now) p i n) }
{
    let t = Tables {
        files: files,
        contents: contents,
        open_files: open_files,
        processes: processes,
        policy: policy,
        rom: rom,
    };
    let d = judge(&t, p, i, n);
    *refusal = refusal_of(d);
    move_on(open_files, ofd_held(processes, p, i), d);
    bytes_lent(contents, rom, d)
}
