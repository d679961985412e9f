// The call without a soundness test, for C. It is compiled apart from the rest of the store: where nothing else calls them, the compiler makes one piece of
// the decision, the answer and the effect, and hands nothing over in memory. It is `store::call::act` written out: as one function that is called from here
// the piece is larger than what the compiler takes in.
#![tactic(auto)]

ghost use Rattle.std.specs.Prelude.{◌≡◌};
ghost use Rattle.rules.specs.Store.{fixed, store};
ghost use Rattle.rules.specs.Step.{act};
ghost use Rattle.store.specs.Lent.{lent, lent_of};
ghost use Rattle.store.specs.Numbered.{numbered};

use rules::answer::Answer;
use rules::ids::{Fd, Pid};
use rules::request::Request;
use tables::lent::{Call, Tables};

// One call on tables that are known to be sound: no test is made.
#[unsafe(no_mangle)]
pub extern "C" fn mritvelja_act(
    files: &mut [u32],
    contents: &mut [u8],
    open_files: &mut [u32],
    processes: &mut [u32],
    policy: &[u8],
    rom: &[u8],
    process: u8,
    call: u8,
    descriptor: u8,
    number: u16,
    path: &[u8],
    data: &[u8],
    buffer: &mut [u8],
) -> Answer
    ensures { lent result buffer.new (store files.new contents.new open_files.new processes.new) ≡ lent_of (act (fixed policy.now rom.now) (store files.old contents.old open_files.old processes.old) (numbered process call descriptor number path.now «data».now buffer.old)) }
{
    let t = Tables {
        files: files,
        contents: contents,
        open_files: open_files,
        processes: processes,
        policy: policy,
        rom: rom,
    };
    let call = Call {
        request: Request {
            process: Pid(process),
            call: call,
            fd: Fd(descriptor),
            number: number,
        },
        path: path,
        data: data,
    };
    let d = decision::decide::decide_call(&t, &call, buffer);
    store::call::settle(
        files, contents, open_files, processes, rom, &call, buffer, d,
    )
}
