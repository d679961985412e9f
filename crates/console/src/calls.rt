// A line that makes a call: the process, the call, and its parts.
ghost use Rattle.std.specs.Prelude.{◌≡◌, take};
ghost use Rattle.std.specs.Option.{is_some, option_copied};
ghost use Rattle.tables.specs.Tables.{asked};
ghost use Rattle.console.specs.Calls.{call_number, row_of, place_of, part_number, part_text, part_ends, call_asked, request_of, request_in, buffer_size, outcome_on, called_tables, call_in, line_called};

use crate::numbers::{number, number_at};
use crate::printing::print_text;
use crate::settings::Console;
use crate::texts::text_of;
use crate::words::{index_of, word};
use rules::answer::Answer;
use rules::ids::{Fd, Pid};
use rules::request::Request;
use tables::calls::{operation_of, uses};
use tables::lent::Call;
use tables::parts::upto;

// A call's number by its name, or as it stands, so that unknown ones can be made too.
fn call_number(name: &[u8]) -> Option<u32>
    ensures { result ≡ call_number name.now }
{
    let known = index_of(
        b"open create mkdir unlink rmdir link list chmod stat close read write seek dup fork exit exec symlink readlink rename",
        name,
    );
    match known {
        Some(k) => Some(k as u32 + 1),
        None => number(name),
    }
}

// Which parts a call has; unknown ones have those of row 0.
#[tactic(auto, unfolding(crate::specs::Calls::row_of))]
fn row_of(call: Option<u32>) -> usize
    ensures { result ≡ row_of call }
{
    match call {
        Some(c) if c < 21 => c as usize,
        _ => 0,
    }
}

// The word that holds a part of a call: f descriptor, n number, p path, d bytes, second path or target. The words end
// at the dot.
fn place(call: Option<u32>, part: u8) -> Option<usize>
    ensures { result ≡ place_of call part }
{
    let parts = word(
        b". np. np. np. p. p. pd. np. np. p. f. fn. fd. fn. f. . . p. pd. np. pd.",
        row_of(call),
    );
    let k = parts.iter().position(|p| *p == part)?;
    Some(k + 2)
}

#[tactic(auto, unfolding(crate::specs::Calls::part_number))]
fn part_number(line: &[u8], place: Option<usize>) -> Option<u32>
    ensures { result ≡ part_number line.now place }
{
    match place {
        Some(k) => number_at(line, k),
        None => Some(0),
    }
}

// The part's text, in the room that is lent for it; no bytes where the call has no such part.
#[tactic(auto, unfolding(crate::specs::Calls::part_text))]
fn part_text<'a>(line: &[u8], place: Option<usize>, room: &'a mut [u8; 512]) -> Option<&'a [u8]>
    ensures { option_copied result ≡ part_text line.now place }
{
    match place {
        Some(k) => text_of(word(line, k), room),
        None => Some(&[]),
    }
}

#[tactic(auto, unfolding(crate::specs::Calls::part_ends))]
fn part_ends(line: &[u8], place: Option<usize>) -> bool
    ensures { result ≡ part_ends line.now place }
{
    match place {
        Some(k) => word(line, k).is_empty(),
        None => false,
    }
}

// A call's numbers have 8 bits, and the last 16.
#[tactic(auto, unfolding(crate::specs::Calls::request_of, crate::specs::Calls::in_range, rules::specs::Choice::every))]
pub(crate) fn request(
    process: Option<u32>,
    call: Option<u32>,
    fd: Option<u32>,
    n: Option<u32>,
) -> Option<Request>
    ensures { result ≡ request_of process call fd n }
{
    Some(Request {
        process: Pid(u8::try_from(process?).ok()?),
        call: u8::try_from(call?).ok()?,
        fd: Fd(u8::try_from(fd?).ok()?),
        number: u16::try_from(n?).ok()?,
    })
}

// A read's number is the size of its buffer.
#[tactic(auto, unfolding(crate::specs::Calls::buffer_size))]
fn buffer_size(c: Request) -> usize
    ensures { result ≡ buffer_size c }
{
    if uses(operation_of(c.call)).reads {
        c.number as usize
    } else {
        0
    }
}

fn call_asked(line: &[u8]) -> Option<u32>
    ensures { result ≡ call_asked line.now }
{
    call_number(word(line, 1))
}

// The call's numbers; none where one is too large, or the line does not end after the call's parts.
#[tactic(auto, unfolding(crate::specs::Calls::request_in, crate::specs::Calls::fitting, rules::specs::Choice::every))]
fn request_in(line: &[u8]) -> Option<Request>
    ensures { result ≡ request_in line.now }
{
    let call = call_asked(line);
    let c = request(
        number_at(line, 0),
        call,
        part_number(line, place(call, b'f')),
        part_number(line, place(call, b'n')),
    )?;
    if part_ends(line, place(call, b'.')) && buffer_size(c) <= 512 {
        Some(c)
    } else {
        None
    }
}

// The first n bytes of the buffer.
fn first(buffer: &mut [u8], n: usize) -> &mut [u8]
    ensures { result.now ≡ take n buffer.old }
{
    if n < buffer.len() {
        return &mut buffer[0..n];
    }
    buffer
}

pub(crate) fn print_named(name: &[u8], value: u64) {
    io::write_all(1, b" ");
    io::write_all(1, name);
    io::print_decimal(1, value);
}

fn print_fields(fields: &[u32; 8]) {
    let names = b"kind= owner= group= bits= label= length= names= stamp=";
    for (name, value) in names.split(|b| *b == b' ').zip(fields) {
        print_named(name, *value as u64);
    }
}

// The answer, with the listed name or the bytes read, or a file's fields: kind 0 is no file's.
fn print_answer(a: Answer, buffer: &[u8]) {
    io::write_all(1, b":");
    print_named(b"answer=", a.refusal as u64);
    print_named(b"stop=", a.stop as u64);
    print_named(b"value=", a.value as u64);
    io::write_all(1, b" bytes=");
    print_text(upto(&a.name, a.name_length as usize));
    print_text(upto(buffer, a.value as usize));
    if a.fields[0] != 0 {
        print_fields(&a.fields);
    }
}

// The tables after the call; its answer is written.
fn serve(s: &mut Console, call: &Call, buffer: &mut [u8])
    ensures tables { s.new ≡ called_tables s.old (asked call.now buffer.old) }
    ensures buffer { buffer.new ≡ (outcome_on s.old (asked call.now buffer.old)).reply.buffer }
{
    let a = store::call::call(
        &mut s.files,
        &mut s.contents,
        &mut s.open_files,
        &mut s.processes,
        &s.policy,
        s.rom.bytes(),
        call,
        buffer,
    );
    print_answer(a, buffer);
}

// A line that makes a call: whether it does, and the tables after it.
#[tactic(auto, unfolding(crate::specs::Calls::call_made, crate::specs::Calls::call_with))]
pub(crate) fn call_line(s: &mut Console, line: &[u8]) -> bool
    ensures known { result ≡ is_some (call_in line.now) }
    ensures tables { s.new ≡ line_called line.now s.old }
{
    let mut path = [0u8; 512];
    let mut data = [0u8; 512];
    let mut buffer = [0u8; 512];
    let call = call_asked(line);
    let path = part_text(line, place(call, b'p'), &mut path);
    let data = part_text(line, place(call, b'd'), &mut data);
    match (request_in(line), path, data) {
        (Some(c), Some(path), Some(data)) => {
            let call = Call {
                request: c,
                path: path,
                data: data,
            };
            serve(s, &call, first(&mut buffer, buffer_size(c)));
            true
        }
        _ => false,
    }
}
