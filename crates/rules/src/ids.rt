// Small numbers that are never taken for one another. Those that a search gives may be past the last: each is asked by the test of its own
// in the rules (`is_slot`, `is_pid` ..).

// A file's slot (an inode number); the paper's slot.
#[derive(Clone, Copy)]
pub struct Slot(pub u32);

// A process; the paper's process number.
#[derive(Clone, Copy)]
pub struct Pid(pub u8);

// A descriptor of a process; the paper's descriptor.
#[derive(Clone, Copy)]
pub struct Fd(pub u8);

// An open file (POSIX: open file description); the paper's open entry.
#[derive(Clone, Copy)]
pub struct Ofd(pub u32);

// An entry of a directory; the paper's place.
#[derive(Clone, Copy)]
pub struct Dirent(pub u32);
