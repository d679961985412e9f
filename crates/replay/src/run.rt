// A run of a script, under an allowance of calls and in the room of an output.
ghost use Rattle.std.specs.Prelude.{◌≡◌, length};
ghost use Rattle.rules.specs.Store.{fixed, store};
ghost use Rattle.script_rules.specs.Replay.{replay};
ghost use Rattle.replay.specs.Once.{run_if};
ghost use Rattle.replay.specs.Runs.{left, left_by};

use script_rules::replayed::{Reason, Replayed};
use script_turn::turn::{Answered, take_turn};
use soundness::store::sound;
use tables::lent::Tables;
use tables::parts::after;

fn stopped(calls: u32, next: usize, written: usize, reason: Reason) -> Replayed
    ensures { result ≡ record { calls = calls; next = next; written = written; reason = reason } }
{
    Replayed {
        calls,
        next,
        written,
        reason,
    }
}

// The calls of a script, from its start on. The result has how many were answered, where the next begins, how much of the output holds answers,
// and why it stopped; past the answers the output stays. Soundness is tested once: a call leaves sound tables sound, and others as they are.
pub fn replay(
    files: &mut [u32],
    contents: &mut [u8],
    open_files: &mut [u32],
    processes: &mut [u32],
    policy: &[u8],
    rom: &[u8],
    script: &[u8],
    allowance: u32,
    output: &mut [u8],
) -> Replayed
    ensures { left result output.new (store files.new contents.new open_files.new processes.new) ≡ left_by 0 0 output.old (replay allowance (fixed policy.now rom.now) script.now (length output.old) (store files.old contents.old open_files.old processes.old)) }
{
    let t = Tables {
        files: files,
        contents: contents,
        open_files: open_files,
        processes: processes,
        policy: policy,
        rom: rom,
    };
    let fit = sound(&t);
    run_by(
        fit, files, contents, open_files, processes, policy, rom, script, allowance, output,
    )
}

// The calls of a script, where `fit` says whether tables and policy are sound.
fn run_by(
    fit: bool,
    files: &mut [u32],
    contents: &mut [u8],
    open_files: &mut [u32],
    processes: &mut [u32],
    policy: &[u8],
    rom: &[u8],
    script: &[u8],
    allowance: u32,
    output: &mut [u8],
) -> Replayed
    ensures { left result output.new (store files.new contents.new open_files.new processes.new) ≡ left_by 0 0 output.old (run_if fit allowance (fixed policy.now rom.now) script.now 0 (length output.old) (store files.old contents.old open_files.old processes.old)) }
{
    let mut at: usize = 0;
    let mut written: usize = 0;
    let mut allowed = allowance;
    loop {
        let t = take_turn(
            fit,
            files,
            contents,
            open_files,
            processes,
            policy,
            rom,
            after(script, at),
            allowed,
            output,
            written,
        );
        match t {
            Err(why) => return stopped(allowance - allowed, at, written, why),
            Ok(Answered { size, length }) => {
                at += size;
                written += length;
                allowed -= 1;
            }
        }
    }
}
