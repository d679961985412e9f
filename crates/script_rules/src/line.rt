// The six lines of a block, each with a key.
#[derive(Clone, Copy)]
pub enum Line {
    Proc,
    Call,
    Fd,
    Arg,
    Path,
    Data,
}
