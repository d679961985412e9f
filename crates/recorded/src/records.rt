// The tables, and what records store in them.
ghost use Rattle.std.specs.Prelude.{◌≡◌, ◌<◌};
ghost use Rattle.recorded.specs.Records.{short_at, word_at, words_set, bytes_set, sizes_in, rom_in, rom_of, empty_tables};

use tables::layout::{CONTENTS_SIZE, FILES_SIZE, OPEN_FILES_SIZE, POLICY_SIZE, PROCESSES_SIZE};
use tables::parts::{after, upto};
use tables::words::{copy, get_or};

// Room for one word more than the tables should have.
const FILES_ROOM: usize = FILES_SIZE + 1;

const CONTENTS_ROOM: usize = CONTENTS_SIZE + 1;

const OPEN_FILES_ROOM: usize = OPEN_FILES_SIZE + 1;

const PROCESSES_ROOM: usize = PROCESSES_SIZE + 1;

pub(crate) const POLICY_ROOM: usize = POLICY_SIZE + 1;

// Room for the factory part: more than 16 prompts of 512 bytes take, so that parts of too many can be stored too.
const ROM_ROOM: usize = 9216;

// `sizes` says how much of each table is lent.
#[derive(Clone, Copy)]
pub(crate) struct Tables {
    pub(crate) sizes: Sizes,
    pub(crate) files: [u32; FILES_ROOM],
    pub(crate) contents: [u8; CONTENTS_ROOM],
    pub(crate) open_files: [u32; OPEN_FILES_ROOM],
    pub(crate) processes: [u32; PROCESSES_ROOM],
    pub(crate) policy: [u8; POLICY_ROOM],
    pub(crate) rom: Rom,
}

#[derive(Clone, Copy)]
pub(crate) struct Sizes {
    pub(crate) files: usize,
    pub(crate) contents: usize,
    pub(crate) open_files: usize,
    pub(crate) processes: usize,
    pub(crate) policy: usize,
}

// The factory part is the first `size` bytes of its room.
#[derive(Clone, Copy)]
pub(crate) struct Rom {
    room: [u8; ROM_ROOM],
    size: usize,
}

// Why no tables come after a record.
#[derive(Clone, Copy)]
pub(crate) enum Stop {
    Broken,
    Ended,
}

impl Rom {
    // What is past the room is left out.
    #[tactic(auto, unfolding(crate::specs::Records::rom_in))]
    pub(crate) fn of(bytes: &[u8]) -> Rom
        ensures { result ≡ rom_in bytes.now }
    {
        let mut room = [0u8; ROM_ROOM];
        copy(&mut room, 0, bytes);
        Rom {
            room: room,
            size: bytes.len().min(ROM_ROOM),
        }
    }

    pub(crate) fn bytes(&self) -> &[u8]
        ensures { result.now ≡ rom_of self.now }
    {
        upto(&self.room, self.size)
    }
}

// All 0 and of the right sizes, and no prompts.
#[tactic(auto, unfolding(crate::specs::Records::empty_tables))]
pub(crate) fn empty() -> Tables
    ensures { result ≡ empty_tables }
{
    Tables {
        sizes: Sizes {
            files: FILES_SIZE,
            contents: CONTENTS_SIZE,
            open_files: OPEN_FILES_SIZE,
            processes: PROCESSES_SIZE,
            policy: POLICY_SIZE,
        },
        files: [0u32; FILES_ROOM],
        contents: [0u8; CONTENTS_ROOM],
        open_files: [0u32; OPEN_FILES_ROOM],
        processes: [0u32; PROCESSES_ROOM],
        policy: [0u8; POLICY_ROOM],
        rom: Rom {
            room: [0u8; ROM_ROOM],
            size: 0,
        },
    }
}

// Two bytes, little end first.
#[tactic(auto, unfolding(crate::specs::Records::short_at))]
pub(crate) fn short_at(bytes: &[u8], at: usize) -> u16
    ensures { result ≡ short_at bytes.now at }
{
    let rest = after(bytes, at);
    u16::from_le_bytes([get_or(rest, 0, 0), get_or(rest, 1, 0)])
}

// Four bytes, little end first.
#[tactic(auto, unfolding(crate::specs::Records::word_at))]
pub(crate) fn word_at(bytes: &[u8], at: usize) -> u32
    ensures { result ≡ word_at bytes.now at }
{
    let rest = after(bytes, at);
    u32::from_le_bytes([
        get_or(rest, 0, 0),
        get_or(rest, 1, 0),
        get_or(rest, 2, 0),
        get_or(rest, 3, 0),
    ])
}

// A place or a size: 4 bytes, little end first.
fn place_at(bytes: &[u8], at: usize) -> usize
    ensures is { result ≡ word_at bytes.now at }
    ensures small { result < 4294967296 }
{
    word_at(bytes, at) as usize
}

// The words of a record, from the place that its first four bytes give.
pub(crate) fn put_words(words: &mut [u32], body: &[u8])
    ensures { words.new ≡ words_set body.now words.old }
{
    let at = place_at(body, 0);
    let rest = after(body, 4);
    let room = words.len().saturating_sub(at);
    for i in 0..room.min(rest.len() / 4) {
        words[at + i] = word_at(rest, 4 * i);
    }
}

// The bytes of a record, from the place that its first four give.
pub(crate) fn put_bytes(bytes: &mut [u8], body: &[u8])
    ensures { bytes.new ≡ bytes_set body.now bytes.old }
{
    copy(bytes, place_at(body, 0), after(body, 4));
}

#[tactic(auto, unfolding(crate::specs::Records::sizes_in))]
pub(crate) fn sizes_in(body: &[u8]) -> Sizes
    ensures { result ≡ sizes_in body.now }
{
    Sizes {
        files: place_at(body, 0),
        contents: place_at(body, 4),
        open_files: place_at(body, 8),
        processes: place_at(body, 12),
        policy: place_at(body, 16),
    }
}
