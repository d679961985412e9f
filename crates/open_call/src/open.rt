// 1. Open.
ghost use Rattle.std.specs.Prelude.{◌≡◌};
ghost use Rattle.rules.specs.Rom.{files_in};
ghost use Rattle.rules.specs.Rights.{mode_rights};
ghost use Rattle.rules.specs.DecidePaths.{truncated, opening, open_room, open_file, open_mode, decide_open};
ghost use Rattle.tables.specs.Tables.{file_in, open_in, desc_in, tree_seen};

use allocation::free::{free_fd, free_ofd};
use resolution::walk::follow_path;
use rights::rights::permission_over;
use rom::seen::is_plain;
use rules::decision::{Decision, Effect, NewOpen, Record, granted};
use rules::ids::{Fd, Ofd, Pid, Slot};
use rules::refusal::Refusal;
use rules::request::Subject;
use rules::rights::{OpenFlags, OpenMode, Rights};
use tables::ids::{is_fd, is_ofd};
use tables::layout::PLAIN;
use tables::lent::Tables;
use tables::numbers::up_one;

// The rights that an open asks.
#[tactic(auto, unfolding(rules::specs::Rights::mode_rights))]
fn rights_of(m: OpenMode) -> Rights
    ensures { result ≡ mode_rights m }
{
    if m.0 == OpenMode::READ.0 {
        Rights::READ
    } else if m.0 == OpenMode::BOTH.0 {
        Rights::READ_WRITE
    } else {
        Rights::WRITE
    }
}

// The record of a file that is truncated.
fn truncate(files: &[u32], s: Slot) -> Record
    ensures { result ≡ truncated (files_in files.now) s }
{
    Record {
        kind: PLAIN,
        owner: rom::seen::owner(files, s),
        group: rom::seen::group(files, s),
        bits: rom::seen::bits(files, s),
        label: rom::seen::label(files, s),
        length: 0,
        links: rom::seen::links(files, s),
        version: up_one(rom::seen::version(files, s)),
    }
}

// An empty file is not truncated.
#[tactic(auto, unfolding(rules::specs::DecidePaths::opening, rules::specs::Choice::every))]
fn open_effect(files: &[u32], s: Slot, flags: OpenFlags, i: Fd, e: Ofd) -> Effect
    ensures { result ≡ opening (files_in files.now) s flags.mode flags.truncates i e }
{
    let new = NewOpen {
        fd: i,
        ofd: e,
        slot: s,
        mode: flags.mode,
    };
    if flags.truncates && 0 < rom::seen::length(files, s) {
        Effect::Truncated(new, truncate(files, s))
    } else {
        Effect::Opened(new)
    }
}

#[tactic(auto, using(rules::proofs::Choices::steps), unfolding(rules::specs::DecidePaths::open_room))]
fn open_room(files: &[u32], s: Slot, flags: OpenFlags, i: Fd, e: Ofd) -> Decision
    ensures { result ≡ open_room (files_in files.now) s flags.mode flags.truncates i e }
{
    if !is_fd(i) {
        return Err(Refusal::TableFull.into());
    }
    if !is_ofd(e) {
        return Err(Refusal::TableFull.into());
    }
    granted(i.0 as u32, open_effect(files, s, flags, i, e))
}

#[tactic(auto, using(rights::proofs::Permissions::asked), unfolding(rules::specs::DecidePaths::open_file))]
fn open_file(t: &Tables, p: Pid, who: Subject, flags: OpenFlags, s: Slot) -> Decision
    ensures { result ≡ open_file t.now.policy.now (file_in t.now) (open_in t.now) (desc_in t.now) p who flags.mode flags.truncates s }
{
    if !is_plain(t.files, s) {
        return Err(Refusal::WrongKind.into());
    }
    permission_over(t, who, s, rights_of(flags.mode))?;
    open_room(
        t.files,
        s,
        flags,
        free_fd(t.processes, p),
        free_ofd(t.open_files),
    )
}

#[tactic(auto, using(rules::proofs::Choices::steps), unfolding(rules::specs::DecidePaths::open_mode))]
fn open_mode(t: &Tables, p: Pid, who: Subject, flags: Option<OpenFlags>, s: Slot) -> Decision
    ensures { result ≡ open_mode t.now.policy.now (file_in t.now) (open_in t.now) (desc_in t.now) p who flags s }
{
    let flags = flags.ok_or(Refusal::Malformed)?;
    open_file(t, p, who, flags, s)
}

#[tactic(auto, using(rules::proofs::Choices::steps), unfolding(rules::specs::DecidePaths::decide_open, rules::specs::Checks::after))]
pub fn decide_open(t: &Tables, p: Pid, who: Subject, n: u32, path: &[u8]) -> Decision
    ensures { result ≡ decide_open t.now.policy.now (tree_seen t.now) (open_in t.now) (desc_in t.now) p who n path.now }
{
    let at = follow_path(t, who, path)?;
    open_mode(t, p, who, OpenMode::new(n), at.slot)
}
