// A call: the soundness test, the decision, and what it does.
ghost use Rattle.std.specs.Prelude.{◌≡◌};
ghost use Rattle.rules.specs.Store.{fixed, store};
ghost use Rattle.rules.specs.Step.{act, step, outcome_of, into};
ghost use Rattle.store.specs.Lent.{lent, lent_of};
ghost use Rattle.tables.specs.Tables.{asked};

use apply::carry::carry_out;
use reply::answer::{refused_answer, say};
use rules::answer::Answer;
use rules::decision::{Decision, Stop};
use rules::refusal::Refusal;
use tables::lent::{Call, Tables};

// What a decision is answered, and what it does.
pub fn settle(
    files: &mut [u32],
    contents: &mut [u8],
    open_files: &mut [u32],
    processes: &mut [u32],
    rom: &[u8],
    call: &Call,
    buffer: &mut [u8],
    d: Decision,
) -> Answer
    ensures { lent result buffer.new (store files.new contents.new open_files.new processes.new) ≡ lent_of (outcome_of rom.now (store files.old contents.old open_files.old processes.old) (asked call.now buffer.old) (into buffer.old) d) }
{
    match d {
        Err(stop) => refused_answer(stop),
        Ok(grant) => {
            let a = say(files, contents, rom, buffer, grant.value, grant.output);
            carry_out(files, contents, open_files, processes, call, grant.effect);
            a
        }
    }
}

// A call on tables that are known to be sound: no test is made.
pub fn act(
    files: &mut [u32],
    contents: &mut [u8],
    open_files: &mut [u32],
    processes: &mut [u32],
    policy: &[u8],
    rom: &[u8],
    call: &Call,
    buffer: &mut [u8],
) -> Answer
    ensures { lent result buffer.new (store files.new contents.new open_files.new processes.new) ≡ lent_of (act (fixed policy.now rom.now) (store files.old contents.old open_files.old processes.old) (asked call.now buffer.old)) }
{
    let t = Tables {
        files: files,
        contents: contents,
        open_files: open_files,
        processes: processes,
        policy: policy,
        rom: rom,
    };
    let d = decision::decide::decide_call(&t, call, buffer);
    settle(files, contents, open_files, processes, rom, call, buffer, d)
}

// A call: refused with 1 where the tables, the policy or the factory part are not sound.
pub fn call(
    files: &mut [u32],
    contents: &mut [u8],
    open_files: &mut [u32],
    processes: &mut [u32],
    policy: &[u8],
    rom: &[u8],
    call: &Call,
    buffer: &mut [u8],
) -> Answer
    ensures { lent result buffer.new (store files.new contents.new open_files.new processes.new) ≡ lent_of (step (fixed policy.now rom.now) (store files.old contents.old open_files.old processes.old) (asked call.now buffer.old)) }
{
    let t = Tables {
        files: files,
        contents: contents,
        open_files: open_files,
        processes: processes,
        policy: policy,
        rom: rom,
    };
    if !soundness::store::sound(&t) {
        return refused_answer(Refusal::Unsound.into());
    }
    act(
        files, contents, open_files, processes, policy, rom, call, buffer,
    )
}
