// One block of a script: why the run stops before it, or its call made and its answer written. `fit` is what the soundness test said.
ghost use Rattle.std.specs.Prelude.{◌≡◌, ◌-◌, length};
ghost use Rattle.rules.specs.Store.{fixed, store};
ghost use Rattle.tables.specs.Tables.{asked};
ghost use Rattle.script_rules.specs.Blocks.{after_line};
ghost use Rattle.script_rules.specs.declared.line.Line.TheVariants as line;
ghost use Rattle.script_turn.specs.Turns.{served, served_by, block_served, turned, block_turn, turn_of};

use script_input::blocks::{Numbers, block_ok, from_path, read_numbers};
use script_input::requests::{request_for, room_for};
use script_output::answers::write_answer;
use script_rules::line::Line;
use script_rules::replayed::Reason;
use script_text::hex::read_bytes;
use script_text::lines::{after_line, text};
use stages::call::{answer, carry, judge};
use tables::layout::BLOCK;
use tables::lent::{Call, Tables};
use tables::parts::upto;

// A call is answered: the bytes of its block, and of its answer.
#[derive(Clone, Copy)]
pub struct Answered {
    pub size: usize,
    pub length: usize,
}

// A call is made if its answer has room. The answer's length, none where it has no room.
fn serve(
    fit: bool,
    files: &mut [u32],
    contents: &mut [u8],
    open_files: &mut [u32],
    processes: &mut [u32],
    policy: &[u8],
    rom: &[u8],
    call: &Call,
    buffer: &mut [u8],
    output: &mut [u8],
    at: usize,
) -> Option<usize>
    ensures { served result output.new (store files.new contents.new open_files.new processes.new) ≡ served_by fit (fixed policy.now rom.now) output.old at (store files.old contents.old open_files.old processes.old) (asked call.now buffer.old) }
{
    let t = Tables {
        files: files,
        contents: contents,
        open_files: open_files,
        processes: processes,
        policy: policy,
        rom: rom,
    };
    let d = judge(fit, &t, call, buffer);
    let a = answer(files, contents, rom, buffer, d);
    let n = write_answer(output, at, a, buffer)?;
    carry(files, contents, open_files, processes, call, d);
    Some(n)
}

// The call of an unbroken block: of its numbers, its path's line on, its data's line on.
fn serve_block(
    fit: bool,
    files: &mut [u32],
    contents: &mut [u8],
    open_files: &mut [u32],
    processes: &mut [u32],
    policy: &[u8],
    rom: &[u8],
    n: Numbers,
    p: &[u8],
    d: &[u8],
    output: &mut [u8],
    at: usize,
) -> Option<usize>
    ensures { served result output.new (store files.new contents.new open_files.new processes.new) ≡ block_served fit (fixed policy.now rom.now) n p.now d.now output.old at (store files.old contents.old open_files.old processes.old) }
{
    let mut data = [0u8; BLOCK + 1];
    let count = read_bytes(text(d, Line::Data), &mut data);
    let mut buffer = [0u8; BLOCK];
    let size = room_for(n);
    let call = Call {
        request: request_for(n),
        path: text(p, Line::Path),
        data: upto(&data, count),
    };
    serve(
        fit,
        files,
        contents,
        open_files,
        processes,
        policy,
        rom,
        &call,
        &mut buffer[0..size],
        output,
        at,
    )
}

// How many bytes the block has that s begins with and whose data's line d begins with.
fn block_size(s: &[u8], d: &[u8]) -> usize
    ensures { result ≡ length s.now - length (after_line line.Data d.now) }
{
    s.len().saturating_sub(after_line(d, Line::Data).len())
}

fn take_block(
    fit: bool,
    files: &mut [u32],
    contents: &mut [u8],
    open_files: &mut [u32],
    processes: &mut [u32],
    policy: &[u8],
    rom: &[u8],
    s: &[u8],
    n: Numbers,
    p: &[u8],
    d: &[u8],
    output: &mut [u8],
    at: usize,
) -> Result<Answered, Reason>
    ensures { turned result output.new (store files.new contents.new open_files.new processes.new) ≡ block_turn fit (fixed policy.now rom.now) s.now n p.now d.now output.old at (store files.old contents.old open_files.old processes.old) }
{
    if !block_ok(n, p, d) {
        return Err(Reason::Broken);
    }
    let size = block_size(s, d);
    let length = serve_block(
        fit, files, contents, open_files, processes, policy, rom, n, p, d, output, at,
    )
    .ok_or(Reason::Room)?;
    Ok(Answered { size, length })
}

// s is what is left of the script, and n how many calls are still allowed.
pub fn take_turn(
    fit: bool,
    files: &mut [u32],
    contents: &mut [u8],
    open_files: &mut [u32],
    processes: &mut [u32],
    policy: &[u8],
    rom: &[u8],
    s: &[u8],
    n: u32,
    output: &mut [u8],
    at: usize,
) -> Result<Answered, Reason>
    ensures { turned result output.new (store files.new contents.new open_files.new processes.new) ≡ turn_of fit n (fixed policy.now rom.now) s.now output.old at (store files.old contents.old open_files.old processes.old) }
{
    if s.is_empty() {
        return Err(Reason::End);
    }
    if n == 0 {
        return Err(Reason::Allowance);
    }
    let numbers = read_numbers(s).ok_or(Reason::Broken)?;
    let p = from_path(s);
    let d = after_line(p, Line::Path);
    take_block(
        fit, files, contents, open_files, processes, policy, rom, s, numbers, p, d, output, at,
    )
}
