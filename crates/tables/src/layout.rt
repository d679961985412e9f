// Every size, width and column of the tables, named once, with the paper's term where it is another. The rules name them in specs/Layout.antt.

// How many files there are; slot 0 is the root.
pub const SLOTS: u32 = 128;

// Bytes of a slot.
pub const BLOCK: usize = 512;

// Entries of a directory (the paper's places), and the bytes of one.
pub const DIRENTS: u32 = 16;

pub const DIRENT_WIDTH: usize = 16;

// The entries that lookups and lists go through: in the root one more, that of /rom.
pub const ENTRIES: u32 = DIRENTS + 1;

// Prompts of the factory part, which have the numbers from SLOTS on; and the number of their directory, /rom.
pub const PROMPTS: u32 = 16;

pub const ROM: u32 = SLOTS + PROMPTS;

// Open files (the paper's open entries).
pub const OPEN_FILES: u32 = 32;

pub const PROCESSES: u8 = 8;

pub const DESCRIPTORS: u8 = 8;

pub const LABELS: usize = 16;

// Of a policy's two parts: the rights, then as many transitions.
pub const RIGHTS_SIZE: usize = LABELS * LABELS;

// Bytes of a name, names and bytes of a path.
pub const NAME: usize = 14;

pub const NAMES: u8 = 8;

pub const PATH: usize = 64;

// Symbolic links followed in one walk.
pub const FOLLOWS: u32 = 8;

// A file's record: how many words it has, and their columns.
pub const FILE_WIDTH: usize = 8;

pub const FILE_KIND: usize = 0;

pub const FILE_OWNER: usize = 1;

pub const FILE_GROUP: usize = 2;

pub const FILE_BITS: usize = 3;

pub const FILE_LABEL: usize = 4;

pub const FILE_LENGTH: usize = 5;

// How many directory entries name it (the paper's names).
pub const FILE_LINKS: usize = 6;

// The paper's stamp.
pub const FILE_VERSION: usize = 7;

// Kinds.
pub const FREE: u32 = 0;

pub const PLAIN: u32 = 1;

pub const DIRECTORY: u32 = 2;

// A symbolic link.
pub const LINK: u32 = 3;

// An open file: how many words it has, and their columns.
pub const OPEN_FILE_WIDTH: usize = 4;

pub const OPEN_SLOT: usize = 0;

pub const OPEN_MODE: usize = 1;

// The paper's position.
pub const OPEN_OFFSET: usize = 2;

pub const OPEN_REFERENCES: usize = 3;

// A process: how many words it has, how many of them are its own, and their columns. Its descriptors follow.
pub const PROCESS_WIDTH: usize = 12;

pub const PROCESS_DESCRIPTOR: usize = 4;

pub const PROCESS_USED: usize = 0;

pub const PROCESS_USER: usize = 1;

pub const PROCESS_GROUP: usize = 2;

// A process's label.
pub const PROCESS_LABEL: usize = 3;

// No transition.
pub const NO_TRANSITION: u32 = 255;

// Largest values.
pub const KIND_MAX: u32 = 3;

pub const USER_MAX: u32 = 65535;

pub const GROUP_MAX: u32 = 65535;

pub const LABEL_MAX: u32 = 15;

pub const WORD_MAX: u32 = 4294967295;

// Of a file's length, and of an offset.
pub const LENGTH_MAX: u32 = BLOCK as u32;

// The sizes of the lent tables.
pub const FILES_SIZE: usize = (SLOTS as usize) * FILE_WIDTH;

pub const CONTENTS_SIZE: usize = (SLOTS as usize) * BLOCK;

pub const OPEN_FILES_SIZE: usize = (OPEN_FILES as usize) * OPEN_FILE_WIDTH;

pub const PROCESSES_SIZE: usize = (PROCESSES as usize) * PROCESS_WIDTH;

pub const POLICY_SIZE: usize = RIGHTS_SIZE + RIGHTS_SIZE;
