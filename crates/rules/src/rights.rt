// Rights, permission bits and open modes: a type each, one constant for each right and mode, and constructors that
// refuse numbers out of range.
ghost use Rattle.std.specs.Prelude.{◌≡◌};
ghost use Rattle.rules.specs.Rights.{rights_known, rights_of, bits_known, bits_of, mode_of, mode_known, mode_kept};

// A set of rights: read 4, write 2, search or execute 1.
#[derive(Clone, Copy)]
pub struct Rights(pub u32);

impl Rights {
    pub const READ: Rights = Rights(4);

    pub const WRITE: Rights = Rights(2);

    pub const READ_WRITE: Rights = Rights(6);

    // Of a plain file: execute it. Of a directory: search it.
    pub const EXECUTE: Rights = Rights(1);

    #[tactic(auto, unfolding(crate::specs::Rights::rights_of))]
    pub fn new(n: u32) -> Option<Rights>
        ensures { result ≡ rights_of n }
    {
        if n <= 7 { Some(Rights(n)) } else { None }
    }

    // The number is one of rights.
    pub fn known(n: u32) -> bool
        ensures { result ≡ rights_known n }
    {
        Rights::new(n).is_some()
    }
}

// Permission bits: the rights that a file gives to its owner (64 each), its group (8 each) and others.
#[derive(Clone, Copy)]
pub struct Bits(pub u32);

impl Bits {
    #[tactic(auto, unfolding(crate::specs::Rights::bits_of))]
    pub fn new(n: u32) -> Option<Bits>
        ensures { result ≡ bits_of n }
    {
        if n <= 511 { Some(Bits(n)) } else { None }
    }

    // The number is one of bits.
    pub fn known(n: u32) -> bool
        ensures { result ≡ bits_known n }
    {
        Bits::new(n).is_some()
    }
}

// The mode of an open file.
#[derive(Clone, Copy)]
pub struct OpenMode(pub u32);

// How a file is opened: as it is, or truncated, the paper's cut to empty.
#[derive(Clone, Copy)]
pub struct OpenFlags {
    pub mode: OpenMode,
    pub truncates: bool,
}

impl OpenMode {
    pub const READ: OpenMode = OpenMode(1);

    pub const WRITE: OpenMode = OpenMode(2);

    pub const BOTH: OpenMode = OpenMode(3);

    pub const APPEND: OpenMode = OpenMode(4);

    // The mode that the number of an open says, and whether it truncates: 8 is then added to the mode's number.
    pub fn new(n: u32) -> Option<OpenFlags>
        ensures { result ≡ mode_of n }
    {
        let (mode, truncates) = match n {
            1 => (OpenMode::READ, false),
            2 => (OpenMode::WRITE, false),
            3 => (OpenMode::BOTH, false),
            4 => (OpenMode::APPEND, false),
            10 => (OpenMode::WRITE, true),
            11 => (OpenMode::BOTH, true),
            12 => (OpenMode::APPEND, true),
            _ => return None,
        };
        Some(OpenFlags {
            mode: mode,
            truncates: truncates,
        })
    }

    // The number is one that an open may be given.
    pub fn known(n: u32) -> bool
        ensures { result ≡ mode_known (mode_of n) }
    {
        OpenMode::new(n).is_some()
    }

    // The number is one that an open file has: the 8 of an open that truncates is not kept.
    #[tactic(auto, unfolding(crate::specs::Rights::mode_kept))]
    pub fn kept(n: u32) -> bool
        ensures { result ≡ mode_kept (mode_of n) }
    {
        match OpenMode::new(n) {
            Some(flags) => !flags.truncates,
            None => false,
        }
    }
}
