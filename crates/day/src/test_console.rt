// The test console's tables. crates/rules/specs/Console.antt has the store.
ghost use Rattle.std.specs.Prelude.{◌≡◌, [], ◌∷◌};
ghost use Rattle.rules.specs.Layout.{PROCESS_WIDTH};
ghost use Rattle.rules.specs.Store.{puts};
ghost use Rattle.rules.specs.Console.{console_files, console_contents, console_processes, console_policy};

use rows::rows::{put_dirent, put_record};
use rules::decision::Record;
use rules::ids::{Dirent, Pid, Slot};
use rules::rights::Bits;
use tables::layout::{
    BLOCK, CONTENTS_SIZE, DIRECTORY, FILES_SIZE, LABELS, PLAIN, POLICY_SIZE, PROCESS_GROUP,
    PROCESS_LABEL, PROCESS_USED, PROCESS_USER, PROCESS_WIDTH, PROCESSES_SIZE, RIGHTS_SIZE,
};
use tables::words::{copy, fill, put};

// A record of group 1 with version 0.
fn file_record(kind: u32, owner: u32, bits: Bits, label: u32, length: u32, links: u32) -> Record
    ensures { result ≡ record { kind = kind; owner = owner; group = 1; bits = bits; label = label; length = length; links = links; version = 0 } }
{
    Record {
        kind,
        owner,
        group: 1,
        bits,
        label,
        length,
        links,
        version: 0,
    }
}

// The root, /fares, /fares/now and /key.
#[tactic(auto, unfolding(rules::specs::Computing::computing))]
pub(crate) fn files() -> [u32; FILES_SIZE]
    ensures { result ≡ console_files }
{
    let mut files = [0u32; FILES_SIZE];
    put_record(
        &mut files,
        Slot(0),
        file_record(DIRECTORY, 0, Bits(493), 0, 2, 0),
    );
    put_record(
        &mut files,
        Slot(1),
        file_record(DIRECTORY, 10, Bits(493), 0, 1, 1),
    );
    put_record(
        &mut files,
        Slot(2),
        file_record(PLAIN, 10, Bits(484), 0, 5, 1),
    );
    put_record(
        &mut files,
        Slot(3),
        file_record(PLAIN, 10, Bits(448), 3, 4, 1),
    );
    files
}

pub(crate) fn contents() -> [u8; CONTENTS_SIZE]
    ensures { result ≡ console_contents (1 ∷ 2 ∷ 3 ∷ 4 ∷ []) }
{
    let mut contents = [0u8; CONTENTS_SIZE];
    put_dirent(&mut contents, Slot(0), Dirent(0), b"fares", Slot(1));
    put_dirent(&mut contents, Slot(0), Dirent(1), b"key", Slot(3));
    put_dirent(&mut contents, Slot(1), Dirent(0), b"now", Slot(2));
    copy(&mut contents, BLOCK * 2, b"2.40\n");
    copy(&mut contents, BLOCK * 3, b"\x01\x02\x03\x04");
    contents
}

// A process in use, of group 1; it holds nothing where the table is 0.
fn put_process(processes: &mut [u32], p: Pid, user: u32, label: u32)
    ensures { processes.new ≡ puts PROCESS_WIDTH processes.old p.0 0 (1 ∷ user ∷ 1 ∷ label ∷ []) }
{
    let at = PROCESS_WIDTH * (p.0 as usize);
    put(processes, at + PROCESS_USED, 1);
    put(processes, at + PROCESS_USER, user);
    put(processes, at + PROCESS_GROUP, 1);
    put(processes, at + PROCESS_LABEL, label);
}

#[tactic(auto, unfolding(rules::specs::Computing::computing))]
pub(crate) fn processes() -> [u32; PROCESSES_SIZE]
    ensures { result ≡ console_processes }
{
    let mut processes = [0u32; PROCESSES_SIZE];
    put_process(&mut processes, Pid(0), 0, 0);
    put_process(&mut processes, Pid(1), 10, 1);
    put_process(&mut processes, Pid(2), 20, 2);
    processes
}

// Rights of process labels 0, 1 and 2 over file labels 0 and 3. No transitions: 255 stays there.
#[tactic(auto, unfolding(rules::specs::Computing::computing))]
pub(crate) fn policy() -> [u8; POLICY_SIZE]
    ensures { result ≡ console_policy }
{
    let mut policy = [255u8; POLICY_SIZE];
    fill(&mut policy, 0, RIGHTS_SIZE, 0);
    put(&mut policy, 0, 7);
    put(&mut policy, LABELS, 7);
    put(&mut policy, LABELS + 3, 2);
    put(&mut policy, LABELS * 2, 5);
    policy
}
