// The stages of a decision: process, then the form and the call's own checks in one match on the operation.
ghost use Rattle.std.specs.Prelude.{◌≡◌};
ghost use Rattle.tables.specs.Tables.{fixed_in, view_in, asked};
ghost use Rattle.rules.specs.Decide.{decide_own, decide};
ghost use Rattle.rules.specs.Calls.{form_ok};
ghost use Rattle.rules.specs.Checks.{need};
ghost use Rattle.rules.specs.declared.refusal.Refusal.TheVariants.{Malformed};

use crate::formed::{
    formed_change_bits, formed_create, formed_execute, formed_link, formed_list,
    formed_make_directory, formed_open, formed_read_link, formed_remove, formed_rename,
    formed_seek, formed_stat, formed_symlink, formed_unlink,
};
use allocation::held::in_use;
use descriptor_calls::close::decide_close;
use descriptor_calls::duplicate::decide_duplicate;
use descriptor_calls::fork::decide_fork;
use rules::decision::{Decision, Effect, granted};
use rules::refusal::Refusal;
use rules::request::Operation;
use tables::calls::operation_of;
use tables::lent::{Call, Tables};
use tables::processes::subject;
use transfer_calls::read::decide_read;
use transfer_calls::write::decide_write;

// The form, then the call's own checks in the written order. A call that goes straight to `decide_` has no form to test.
#[tactic(auto, unfolding(rules::specs::Calls::form_ok, rules::specs::Checks::need, rules::specs::Decide::decide_own))]
fn decide_own(t: &Tables, call: &Call, buffer: &[u8], op: Operation) -> Decision
    ensures { result ≡ need (form_ok op call.now.request.number call.now.path.now call.now.«data».now) Malformed (decide_own (fixed_in t.now) (view_in t.now) (asked call.now buffer.now) op) }
{
    let p = call.request.process;
    let i = call.request.fd;
    let n = call.request.number as u32;
    let path = call.path;
    let data = call.data;
    let who = subject(t.processes, p);
    match op {
        Operation::Open => formed_open(t, p, who, n, path),
        Operation::Create => formed_create(t, who, n, path),
        Operation::MakeDirectory => formed_make_directory(t, who, n, path),
        Operation::Unlink => formed_unlink(t, who, path),
        Operation::RemoveDirectory => formed_remove(t, who, path),
        Operation::Link => formed_link(t, who, path, data),
        Operation::List => formed_list(t, who, n, path),
        Operation::ChangeBits => formed_change_bits(t, who, n, path),
        Operation::Stat => formed_stat(t, who, path),
        Operation::Close => decide_close(t, p, i),
        Operation::Read => decide_read(t, p, who, i, buffer.len()),
        Operation::Write => decide_write(t, p, who, i, data.len()),
        Operation::Seek => formed_seek(t.processes, p, i, n),
        Operation::Duplicate => decide_duplicate(t.open_files, t.processes, p, i),
        Operation::Fork => decide_fork(t.processes, p),
        Operation::Exit => granted(0, Effect::Exited),
        Operation::Execute => formed_execute(t, who, path),
        Operation::Symlink => formed_symlink(t, who, path, data),
        Operation::ReadLink => formed_read_link(t, who, buffer.len(), path),
        Operation::Rename => formed_rename(t, who, path, data),
        Operation::Unknown => Err(Refusal::Malformed.into()),
    }
}

// The decision of a call. The buffer's size counts, not its bytes.
#[tactic(auto, using(rules::proofs::Choices::steps), unfolding(rules::specs::Decide::decide))]
pub fn decide_call(t: &Tables, call: &Call, buffer: &[u8]) -> Decision
    ensures { result ≡ decide (fixed_in t.now) (view_in t.now) (asked call.now buffer.now) }
{
    if !in_use(t.processes, call.request.process) {
        return Err(Refusal::NoProcess.into());
    }
    decide_own(t, call, buffer, operation_of(call.request.call))
}
