// The store for C, but for `mritvelja_act`. A slice crosses as a pointer and a number of elements; slices of any length are taken.
#![tactic(auto)]

ghost use Rattle.std.specs.Prelude.{◌≡◌, length};
ghost use Rattle.rules.specs.Store.{fixed, store, pid_of, fd_of};
ghost use Rattle.rules.specs.Sound.{sound};
ghost use Rattle.rules.specs.Step.{step, step_borrow};
ghost use Rattle.borrow.specs.Lent.{lent_back, of_outcome};
ghost use Rattle.borrow.specs.Spans.{span_bytes};
ghost use Rattle.store.specs.Lent.{lent, lent_of};
ghost use Rattle.script_rules.specs.Replay.{replay};
ghost use Rattle.replay.specs.Runs.{left_by};
ghost use Rattle.store.specs.Numbered.{numbered};
ghost use Rattle.abi.specs.Crossing.{flag, reported, crossed, crossed_by};

use borrow::span::{Borrowed, borrow_span};
use rules::answer::Answer;
use rules::ids::{Fd, Pid};
use rules::request::Request;
use script_rules::replayed::Replayed;
use tables::lent::{Call, Tables};

// What came of a run of a script, as it crosses to C.
#[repr(C)]
#[derive(Clone, Copy)]
pub struct Report {
    // Where the next block begins.
    pub next: usize,
    // How much of the output holds answers.
    pub written: usize,
    // Calls answered.
    pub calls: u32,
    // Why it stopped: 1 the script's end, 2 the allowance is spent, 3 the next block is broken, 4 its answer has no room.
    pub reason: u32,
}

fn report_of(r: Replayed) -> Report
    ensures { result ≡ reported r }
{
    let reason = r.reason;
    Report {
        next: r.next,
        written: r.written,
        calls: r.calls,
        reason: reason.number(),
    }
}

// One call: refused with 1 where the tables, the policy or the factory part are not sound.
#[unsafe(no_mangle)]
pub extern "C" fn mritvelja_call(
    files: &mut [u32],
    contents: &mut [u8],
    open_files: &mut [u32],
    processes: &mut [u32],
    policy: &[u8],
    rom: &[u8],
    process: u8,
    call: u8,
    descriptor: u8,
    number: u16,
    path: &[u8],
    data: &[u8],
    buffer: &mut [u8],
) -> Answer
    ensures { lent result buffer.new (store files.new contents.new open_files.new processes.new) ≡ lent_of (step (fixed policy.now rom.now) (store files.old contents.old open_files.old processes.old) (numbered process call descriptor number path.now «data».now buffer.old)) }
{
    let call = Call {
        request: Request {
            process: Pid(process),
            call: call,
            fd: Fd(descriptor),
            number: number,
        },
        path: path,
        data: data,
    };
    store::call::call(
        files, contents, open_files, processes, policy, rom, &call, buffer,
    )
}

// A borrowing read, as numbers: its bytes are `value` bytes of one of the two memories.
#[unsafe(no_mangle)]
pub extern "C" fn mritvelja_borrow_read<'a>(
    files: &[u32],
    contents: &'a [u8],
    open_files: &mut [u32],
    processes: &[u32],
    policy: &[u8],
    rom: &'a [u8],
    process: u8,
    descriptor: u8,
    count: u32,
) -> Borrowed
    ensures outcome { lent_back result.refusal (span_bytes rom.now contents.now result) (store files.now contents.now open_files.new processes.now) ≡ of_outcome (step_borrow (fixed policy.now rom.now) (store files.now contents.now open_files.old processes.now) (pid_of process) (fd_of descriptor) count) }
    ensures value { result.value ≡ length (span_bytes rom.now contents.now result) }
{
    borrow_span(
        files,
        contents,
        open_files,
        processes,
        policy,
        rom,
        Pid(process),
        Fd(descriptor),
        count,
    )
}

// 1 where the tables, the policy and the factory part are sound, else 0.
#[unsafe(no_mangle)]
pub extern "C" fn mritvelja_sound(
    files: &[u32],
    contents: &[u8],
    open_files: &[u32],
    processes: &[u32],
    policy: &[u8],
    rom: &[u8],
) -> u32
    ensures { result ≡ flag (sound (fixed policy.now rom.now) (store files.now contents.now open_files.now processes.now)) }
{
    let t = Tables {
        files: files,
        contents: contents,
        open_files: open_files,
        processes: processes,
        policy: policy,
        rom: rom,
    };
    if soundness::store::sound(&t) { 1 } else { 0 }
}

// The calls of a script, at most `allowance` of them; their answers go to the output, and past them it stays.
#[unsafe(no_mangle)]
pub extern "C" fn mritvelja_replay(
    files: &mut [u32],
    contents: &mut [u8],
    open_files: &mut [u32],
    processes: &mut [u32],
    policy: &[u8],
    rom: &[u8],
    script: &[u8],
    allowance: u32,
    output: &mut [u8],
) -> Report
    ensures { crossed result output.new (store files.new contents.new open_files.new processes.new) ≡ crossed_by (left_by 0 0 output.old (replay allowance (fixed policy.now rom.now) script.now (length output.old) (store files.old contents.old open_files.old processes.old))) }
{
    report_of(replay::run::replay(
        files, contents, open_files, processes, policy, rom, script, allowance, output,
    ))
}
