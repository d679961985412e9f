// 12. Write.
ghost use Rattle.std.specs.Prelude.{◌≡◌, ◌+◌, ◌%◌, ◌^◌, leb};
ghost use Rattle.rules.specs.Layout.{OPEN_FILE_WIDTH, BLOCK};
ghost use Rattle.rules.specs.Store.{tab};
ghost use Rattle.rules.specs.Rom.{files_in};
ghost use Rattle.rules.specs.Decide.{write_at, placement, write_file, write_some, write_open, decide_write};
ghost use Rattle.tables.specs.Tables.{file_in, open_in, desc_in};
ghost use Rattle.transfer_calls.specs.Stored.{stored};

use crate::open_files::{label_allows_open, open_appends, open_length, open_writes};
use allocation::held::{is_held, ofd_held};
use rom::seen::{length, version};
use rules::decision::{Decision, Effect, Placement, granted};
use rules::ids::{Fd, Ofd, Pid, Slot};
use rules::refusal::Refusal;
use rules::request::Subject;
use rules::rights::Rights;
use tables::layout::BLOCK;
use tables::lent::Tables;
use tables::numbers::{add_length, up_one, word_of};
use tables::open_files::{offset, slot_of};

// Where a write through open file e begins.
#[tactic(auto, unfolding(rules::specs::Decide::write_at))]
fn write_start(files: &[u32], open_files: &[u32], e: Ofd) -> u32
    ensures { result ≡ write_at (files_in files.now) (tab OPEN_FILE_WIDTH open_files.now) e }
{
    if open_appends(open_files, e) {
        open_length(files, open_files, e)
    } else {
        offset(open_files, e)
    }
}

// n bytes at `at`, through open file e on slot s.
fn placement_of(files: &[u32], e: Ofd, s: Slot, at: u32, n: usize) -> Placement
    ensures { result ≡ placement (files_in files.now) e s at n }
{
    Placement {
        ofd: e,
        slot: s,
        end: length(files, s),
        gap: at.saturating_sub(length(files, s)),
        at: at,
        length: length(files, s).max(add_length(at, n)),
        version: up_one(version(files, s)),
        offset: add_length(at, n),
    }
}

fn stored_at(files: &[u32], open_files: &[u32], e: Ofd, at: u32, n: usize) -> Decision
    ensures { result ≡ stored (files_in files.now) (tab OPEN_FILE_WIDTH open_files.now) e at (n % 2 ^ 32) n }
{
    let place = placement_of(files, e, slot_of(open_files, e), at, n);
    granted(word_of(n), Effect::Stored(place))
}

fn fits(at: u32, n: usize) -> bool
    ensures { result ≡ leb (at + n) BLOCK }
{
    n <= BLOCK && (at as usize) + n <= BLOCK
}

#[tactic(auto, using(rules::proofs::Choices::steps), unfolding(rules::specs::Decide::write_file))]
fn write_file(files: &[u32], open_files: &[u32], e: Ofd, at: u32, n: usize) -> Decision
    ensures { result ≡ write_file (files_in files.now) (tab OPEN_FILE_WIDTH open_files.now) e at n }
{
    if !fits(at, n) {
        return Err(Refusal::TooLong.into());
    }
    stored_at(files, open_files, e, at, n)
}

#[tactic(auto, unfolding(rules::specs::Decide::write_some))]
fn write_some(files: &[u32], open_files: &[u32], e: Ofd, n: usize) -> Decision
    ensures { result ≡ write_some (files_in files.now) (tab OPEN_FILE_WIDTH open_files.now) e n }
{
    if n == 0 {
        return granted(0, Effect::Nothing);
    }
    write_file(files, open_files, e, write_start(files, open_files, e), n)
}

#[tactic(auto, using(rules::proofs::Choices::steps), unfolding(rules::specs::Decide::write_open))]
fn write_open(t: &Tables, who: Subject, e: Ofd, n: usize) -> Decision
    ensures { result ≡ write_open t.now.policy.now (file_in t.now) (open_in t.now) who e n }
{
    if !open_writes(t.open_files, e) {
        return Err(Refusal::WrongDirection.into());
    }
    if !label_allows_open(t, who, e, Rights::WRITE) {
        return Err(Refusal::LabelForbids.into());
    }
    write_some(t.files, t.open_files, e, n)
}

#[tactic(auto, using(rules::proofs::Choices::steps), unfolding(rules::specs::Decide::decide_write))]
pub fn decide_write(t: &Tables, p: Pid, who: Subject, i: Fd, n: usize) -> Decision
    ensures { result ≡ decide_write t.now.policy.now (file_in t.now) (open_in t.now) (desc_in t.now) p who i n }
{
    if !is_held(t.processes, p, i) {
        return Err(Refusal::NotHeld.into());
    }
    write_open(t, who, ofd_held(t.processes, p, i), n)
}
