// A stored call: the buffer's size, then the call as it is written down.
ghost use Rattle.std.specs.Prelude.{◌≡◌, ltb, length};
ghost use Rattle.rules.specs.Store.{store};
ghost use Rattle.tables.specs.Tables.{asked};
ghost use Rattle.store.specs.Lent.{lent};
ghost use Rattle.recorded.specs.Called.{called_on, left_of, called_tables, read_of, request_in, is_cut, texts, path_length, record_called};

use crate::digest::digest;
use crate::printing::{print_answer, print_digest};
use crate::records::{POLICY_ROOM, Sizes, Stop, Tables, short_at};
use rules::answer::Answer;
use rules::ids::{Fd, Pid};
use rules::request::Request;
use tables::calls::{operation_of, uses};
use tables::lent::Call;
use tables::parts::{after, upto};
use tables::words::get_or;

#[tactic(auto, unfolding(crate::specs::Called::request_in))]
fn request(call: &[u8]) -> Request
    ensures { result ≡ request_in call.now }
{
    Request {
        process: Pid(get_or(call, 0, 0)),
        call: get_or(call, 1, 0),
        fd: Fd(get_or(call, 2, 0)),
        number: short_at(call, 3),
    }
}

// The call on tables of these sizes; what is past them stays.
fn call_part(
    files: &mut [u32],
    contents: &mut [u8],
    open_files: &mut [u32],
    processes: &mut [u32],
    policy: &[u8; POLICY_ROOM],
    rom: &[u8],
    sizes: Sizes,
    call: &Call,
    buffer: &mut [u8],
) -> Answer
    ensures { lent result buffer.new (store files.new contents.new open_files.new processes.new) ≡ called_on sizes policy.now rom.now (store files.old contents.old open_files.old processes.old) (asked call.now buffer.old) }
{
    let f = sizes.files.min(files.len());
    let n = sizes.contents.min(contents.len());
    let e = sizes.open_files.min(open_files.len());
    let p = sizes.processes.min(processes.len());
    store::call::call(
        &mut files[..f],
        &mut contents[..n],
        &mut open_files[..e],
        &mut processes[..p],
        upto(policy, sizes.policy),
        rom,
        call,
        buffer,
    )
}

// What a read has read; other calls have read nothing.
#[tactic(auto, unfolding(crate::specs::Called::read_of))]
fn read_of<'a>(c: Request, buffer: &'a [u8]) -> &'a [u8]
    ensures { result.now ≡ read_of c buffer.now }
{
    let parts = uses(operation_of(c.call));
    if parts.reads {
        return buffer;
    }
    upto(buffer, 0)
}

// The tables after it; its line is written.
#[tactic(auto, unfolding(crate::specs::Called::called_tables))]
fn make_call(mut t: Tables, call: &Call, buffer: &mut [u8]) -> Tables
    ensures tables { result ≡ called_tables t (asked call.now buffer.old) }
    ensures buffer { buffer.new ≡ (left_of t (asked call.now buffer.old)).buffer }
{
    let answer = call_part(
        &mut t.files,
        &mut t.contents,
        &mut t.open_files,
        &mut t.processes,
        &t.policy,
        t.rom.bytes(),
        t.sizes,
        call,
        buffer,
    );
    print_answer(answer, read_of(call.request, buffer));
    print_digest(digest(&t, buffer));
    t
}

// The record ends before the call does.
#[tactic(auto, unfolding(crate::specs::Called::is_cut))]
fn is_cut(body: &[u8]) -> bool
    ensures { result ≡ is_cut body.now }
{
    body.len() < 8 || is_path_cut(body)
}

fn is_path_cut(body: &[u8]) -> bool
    ensures { result ≡ ltb (length (texts body.now)) (path_length body.now) }
{
    let call = after(body, 2);
    after(call, 6).len() < usize::from(get_or(call, 5, 0))
}

#[tactic(auto, unfolding(crate::specs::Called::record_called))]
pub(crate) fn call_record(s: Tables, body: &[u8]) -> Result<Tables, Stop>
    ensures { result ≡ record_called body.now s }
{
    if is_cut(body) {
        return Err(Stop::Broken);
    }
    let mut buffer = [170u8; 1024];
    let written = after(body, 2);
    let length = usize::from(get_or(written, 5, 0));
    let texts = after(written, 6);
    let call = Call {
        request: request(written),
        path: upto(texts, length),
        data: after(texts, length),
    };
    let n = usize::from(short_at(body, 0)).min(1024);
    Ok(make_call(s, &call, &mut buffer[..n]))
}
