// The stages of a call: what is decided, what is answered, what is done. A run of a script asks for room before the last.
// `store::call` makes a call at once, which is quicker.
ghost use Rattle.std.specs.Prelude.{◌≡◌, ℕ, List};
ghost use Rattle.rules.specs.Store.{store};
ghost use Rattle.rules.specs.Step.{store_after};
ghost use Rattle.reply.specs.Answers.{said};
ghost use Rattle.stages.specs.Judged.{judged, answered_by};
ghost use Rattle.tables.specs.Tables.{store_in, fixed_in, asked};

use apply::carry::carry_out;
use decision::decide::decide_call;
use reply::answer::{refused_answer, say};
use rules::answer::Answer;
use rules::decision::Decision;
use rules::refusal::Refusal;
use tables::lent::{Call, Tables};

// What is decided, by what the soundness test said of tables and policy: refused with 1 where they are not sound. Nothing is written.
#[tactic(auto, using(rules::proofs::Choices::steps), unfolding(crate::specs::Judged::judged))]
pub fn judge(fit: bool, t: &Tables, call: &Call, buffer: &[u8]) -> Decision
    ensures { result ≡ judged fit (fixed_in t.now) (store_in t.now) (asked call.now buffer.now) }
{
    if !fit {
        return Err(Refusal::Unsound.into());
    }
    decide_call(t, call, buffer)
}

// What is answered, and the reader's buffer.
pub fn answer<'a>(
    files: &[u32],
    contents: &'a [u8],
    rom: &'a [u8],
    buffer: &mut [u8],
    d: Decision,
) -> Answer
    ensures { (E P : List ℕ) → said result buffer.new ≡ answered_by rom.now (store files.now contents.now E P) d buffer.old }
{
    match d {
        Err(stop) => refused_answer(stop),
        Ok(grant) => say(files, contents, rom, buffer, grant.value, grant.output),
    }
}

// What is done: nothing if it is refused.
pub fn carry(
    files: &mut [u32],
    contents: &mut [u8],
    open_files: &mut [u32],
    processes: &mut [u32],
    call: &Call,
    d: Decision,
)
    ensures { (buffer : List ℕ) → store files.new contents.new open_files.new processes.new ≡ store_after (store files.old contents.old open_files.old processes.old) (asked call.now buffer) d }
{
    if let Ok(grant) = d {
        carry_out(files, contents, open_files, processes, call, grant.effect);
    }
}
