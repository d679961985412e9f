// What is asked of the store.
use crate::ids::{Fd, Pid};

// The numbers of a call. Its path, its bytes and the reader's buffer are lent beside it.
#[derive(Clone, Copy)]
pub struct Request {
    pub process: Pid,
    pub call: u8,
    pub fd: Fd,
    pub number: u16,
}

// Which call a number names.
#[derive(Clone, Copy)]
pub enum Operation {
    Open,
    Create,
    MakeDirectory,
    Unlink,
    RemoveDirectory,
    Link,
    List,
    ChangeBits,
    Stat,
    Close,
    Read,
    Write,
    Seek,
    Duplicate,
    Fork,
    Exit,
    Execute,
    Symlink,
    ReadLink,
    Rename,
    Unknown,
}

// Which parts a call uses: its descriptor, its number; of its path and its last text, the most bytes that a kept call has, 0 where it has none;
// and whether it reads into a buffer, whose size is then its number.
#[derive(Clone, Copy)]
pub struct Parts {
    pub fd: bool,
    pub number: bool,
    pub path: usize,
    pub data: usize,
    pub reads: bool,
}

// Who asks.
#[derive(Clone, Copy)]
pub struct Subject {
    pub user: u32,
    pub group: u32,
    pub label: u32,
}
