// The calls by their numbers, and which parts they use.
ghost use Rattle.std.specs.Prelude.{◌≡◌};
ghost use Rattle.rules.specs.Calls.{operation_of, uses, parts, reading};

use crate::layout::{BLOCK, PATH};
use rules::request::{Operation, Parts};

// Which call a number names.
#[tactic(auto, unfolding(rules::specs::Calls::operation_of))]
pub fn operation_of(call: u8) -> Operation
    ensures { result ≡ operation_of call }
{
    match call {
        1 => Operation::Open,
        2 => Operation::Create,
        3 => Operation::MakeDirectory,
        4 => Operation::Unlink,
        5 => Operation::RemoveDirectory,
        6 => Operation::Link,
        7 => Operation::List,
        8 => Operation::ChangeBits,
        9 => Operation::Stat,
        10 => Operation::Close,
        11 => Operation::Read,
        12 => Operation::Write,
        13 => Operation::Seek,
        14 => Operation::Duplicate,
        15 => Operation::Fork,
        16 => Operation::Exit,
        17 => Operation::Execute,
        18 => Operation::Symlink,
        19 => Operation::ReadLink,
        20 => Operation::Rename,
        _ => Operation::Unknown,
    }
}

fn parts(fd: bool, number: bool, path: usize, data: usize) -> Parts
    ensures { result ≡ parts fd number path «data» }
{
    Parts {
        fd: fd,
        number: number,
        path: path,
        data: data,
        reads: false,
    }
}

// Its number is the size of a buffer to read into.
fn reading(u: Parts) -> Parts
    ensures { result ≡ reading u }
{
    Parts {
        fd: u.fd,
        number: u.number,
        path: u.path,
        data: u.data,
        reads: true,
    }
}

// Which parts a call uses.
#[tactic(auto, unfolding(rules::specs::Calls::uses))]
pub fn uses(o: Operation) -> Parts
    ensures { result ≡ uses o }
{
    match o {
        Operation::Open => parts(false, true, PATH, 0),
        Operation::Create => parts(false, true, PATH, 0),
        Operation::MakeDirectory => parts(false, true, PATH, 0),
        Operation::Unlink => parts(false, false, PATH, 0),
        Operation::RemoveDirectory => parts(false, false, PATH, 0),
        Operation::Link => parts(false, false, PATH, PATH),
        Operation::List => parts(false, true, PATH, 0),
        Operation::ChangeBits => parts(false, true, PATH, 0),
        Operation::Stat => parts(false, false, PATH, 0),
        Operation::Close => parts(true, false, 0, 0),
        Operation::Read => reading(parts(true, true, 0, 0)),
        Operation::Write => parts(true, false, 0, BLOCK),
        Operation::Seek => parts(true, true, 0, 0),
        Operation::Duplicate => parts(true, false, 0, 0),
        Operation::Fork => parts(false, false, 0, 0),
        Operation::Exit => parts(false, false, 0, 0),
        Operation::Execute => parts(false, false, PATH, 0),
        Operation::Symlink => parts(false, false, PATH, PATH),
        Operation::ReadLink => reading(parts(false, true, PATH, 0)),
        Operation::Rename => parts(false, false, PATH, PATH),
        Operation::Unknown => parts(true, true, PATH, BLOCK),
    }
}
