// 11. Read.
ghost use Rattle.std.specs.Prelude.{◌≡◌};
ghost use Rattle.rules.specs.Layout.{OPEN_FILE_WIDTH};
ghost use Rattle.rules.specs.Store.{tab};
ghost use Rattle.rules.specs.Decide.{remaining, fetching, read_open, decide_read};
ghost use Rattle.tables.specs.Tables.{file_in, open_in, desc_in};

use crate::open_files::{label_allows_open, open_reads};
use allocation::held::{is_held, ofd_held};
use rom::seen::length_in;
use rules::decision::{Decision, Effect, Grant, Output};
use rules::ids::{Fd, Ofd, Pid};
use rules::refusal::Refusal;
use rules::request::Subject;
use rules::rights::Rights;
use tables::lent::Tables;
use tables::numbers::{add, smaller};
use tables::open_files::{offset, slot_of};

// How many bytes the file of open file e has from its offset on.
fn bytes_left(t: &Tables, e: Ofd) -> u32
    ensures { result ≡ remaining t.now.rom.now (file_in t.now) (open_in t.now) e }
{
    length_in(t.files, t.rom, slot_of(t.open_files, e)).saturating_sub(offset(t.open_files, e))
}

fn fetched(open_files: &[u32], e: Ofd, n: u32) -> Decision
    ensures { result ≡ fetching (tab OPEN_FILE_WIDTH open_files.now) e n }
{
    let from = offset(open_files, e);
    Ok(Grant {
        value: n,
        output: Output::Bytes(slot_of(open_files, e), from, n),
        effect: Effect::Moved(e, add(from, n)),
    })
}

#[tactic(auto, using(rules::proofs::Choices::steps), unfolding(rules::specs::Decide::read_open))]
fn read_open(t: &Tables, who: Subject, e: Ofd, size: usize) -> Decision
    ensures { result ≡ read_open t.now.policy.now t.now.rom.now (file_in t.now) (open_in t.now) who e size }
{
    if !open_reads(t.open_files, e) {
        return Err(Refusal::WrongDirection.into());
    }
    if !label_allows_open(t, who, e, Rights::READ) {
        return Err(Refusal::LabelForbids.into());
    }
    fetched(t.open_files, e, smaller(size, bytes_left(t, e)))
}

#[tactic(auto, using(rules::proofs::Choices::steps), unfolding(rules::specs::Decide::decide_read))]
pub fn decide_read(t: &Tables, p: Pid, who: Subject, i: Fd, size: usize) -> Decision
    ensures { result ≡ decide_read t.now.policy.now t.now.rom.now (file_in t.now) (open_in t.now) (desc_in t.now) p who i size }
{
    if !is_held(t.processes, p, i) {
        return Err(Refusal::NotHeld.into());
    }
    read_open(t, who, ofd_held(t.processes, p, i), size)
}
