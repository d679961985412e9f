// How a call is decided: refused, or granted with every number that will be written.
ghost use Rattle.std.specs.Prelude.{◌≡◌};
ghost use Rattle.rules.specs.Decisions.{stop, at_no_name};
ghost use Rattle.rules.specs.Checks.{granted};

use crate::ids::{Dirent, Fd, Ofd, Pid, Slot};
use crate::refusal::Refusal;
use crate::request::Subject;
use crate::rights::{Bits, OpenMode};

// Where a walk came to: a slot, and the directory and directory entry that name it; how many names deep it lies, as the walk came to it; and how many
// symbolic links may still be followed.
#[derive(Clone, Copy)]
pub struct Location {
    pub dir: Slot,
    pub dirent: Dirent,
    pub slot: Slot,
    pub depth: u32,
    pub follows: u32,
}

// What a path is walked for: the file that it names; the file that a link by that name leads to; or a new name in its parent, which may be there or
// not.
#[derive(Clone, Copy)]
pub enum Intent {
    Find,
    Follow,
    Create,
}

// Why a call or a walk is refused, and at which name of the path, counted from 1: the paper's stop number. It is 0 where no name stopped it.
#[derive(Clone, Copy)]
pub struct Stop {
    pub refusal: Refusal,
    pub name: u32,
}

impl From<Refusal> for Stop {
    ghost from_gives = { λ refusal stop. stop ≡ at_no_name refusal };

    fn from(refusal: Refusal) -> Stop {
        Stop {
            refusal: refusal,
            name: 0,
        }
    }
}

impl Refusal {
    // At the name of that number.
    pub fn at(self, name: u32) -> Stop
        ensures { result ≡ stop self name }
    {
        Stop {
            refusal: self,
            name: name,
        }
    }
}

// A walk reaches a location, or stops.
pub type Walk = Result<Location, Stop>;

// A file's record, in the order of its columns. Its links are the paper's names, its version the paper's stamp.
#[derive(Clone, Copy)]
pub struct Record {
    pub kind: u32,
    pub owner: u32,
    pub group: u32,
    pub bits: Bits,
    pub label: u32,
    pub length: u32,
    pub links: u32,
    pub version: u32,
}

// What a file that is made has of its own. A link's length is that of its text.
#[derive(Clone, Copy)]
pub struct NewFile {
    pub kind: u32,
    pub bits: Bits,
    pub length: u32,
}

// A directory entry (the paper's place) that is written or cleared, with the directory's new length and version.
#[derive(Clone, Copy)]
pub struct DirChange {
    pub dir: Slot,
    pub dirent: Dirent,
    pub length: u32,
    pub version: u32,
}

// A new open file (the paper's open entry), and the descriptor that holds it.
#[derive(Clone, Copy)]
pub struct NewOpen {
    pub fd: Fd,
    pub ofd: Ofd,
    pub slot: Slot,
    pub mode: OpenMode,
}

// Bytes to be written at `at`: the file's end and the gap behind it, and its length, version (the paper's stamp) and offset (the paper's
// position) afterwards.
#[derive(Clone, Copy)]
pub struct Placement {
    pub ofd: Ofd,
    pub slot: Slot,
    pub end: u32,
    pub gap: u32,
    pub at: u32,
    pub length: u32,
    pub version: u32,
    pub offset: u32,
}

// What becomes of a plain file or a link that loses a name: it keeps its slot, with its links afterwards; or the slot is freed, with its record afterwards.
#[derive(Clone, Copy)]
pub enum Unnamed {
    Kept(Slot, u32),
    Freed(Slot, Record),
}

// What becomes of the open file of a descriptor that is emptied: nothing was held; references remain; the open file
// goes; its file goes with it, with its record afterwards.
#[derive(Clone, Copy)]
pub enum Release {
    Nothing,
    Kept(Ofd, u32),
    Gone(Ofd),
    Freed(Ofd, Slot, Record),
}

// An open file that one descriptor more holds, with its references afterwards.
#[derive(Clone, Copy)]
pub struct Shared {
    pub ofd: Ofd,
    pub references: u32,
}

// What a granted call answers beside its value: nothing; the name of a directory entry; a file's record; bytes of a slot,
// from where and how many.
#[derive(Clone, Copy)]
pub enum Output {
    Nothing,
    Name(Slot, Dirent),
    Fields(Record),
    Bytes(Slot, u32, u32),
}

// What a granted call does. `Truncated`: the paper's cut; `Moved`: a new offset (the paper's position); `Relabelled`: the label after execute;
// `Symlinked`: a link with its text; `Renamed`: another name in the same entry; `Transferred`: a name taken from one directory and given in another.
#[derive(Clone, Copy)]
pub enum Effect {
    Nothing,
    Opened(NewOpen),
    Truncated(NewOpen, Record),
    Created(DirChange, Slot, Record),
    Unlinked(DirChange, Unnamed),
    Removed(DirChange, Slot, Record),
    Linked(DirChange, Slot, u32),
    BitsChanged(Slot, Bits),
    Closed(Fd, Release),
    Stored(Placement),
    Moved(Ofd, u32),
    Duplicated(Fd, Ofd, u32),
    Forked(Pid, Subject),
    Exited,
    Relabelled(u32),
    Symlinked(DirChange, Slot, Record),
    Renamed(DirChange, Slot),
    Transferred(DirChange, DirChange, Slot),
}

// What a call is granted: its value, what else it answers, and what it does.
#[derive(Clone, Copy)]
pub struct Grant {
    pub value: u32,
    pub output: Output,
    pub effect: Effect,
}

// Granted, or refused.
pub type Decision = Result<Grant, Stop>;

// Granted, with a value and nothing more to say.
pub fn granted(value: u32, effect: Effect) -> Decision
    ensures { result ≡ granted value effect }
{
    Ok(Grant {
        value: value,
        output: Output::Nothing,
        effect: effect,
    })
}
