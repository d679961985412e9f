// The console's tables, and the lines that set or show them.
ghost use Rattle.std.specs.Prelude.{◌≡◌, ◌+◌, ◌≤◌, ◌<◌, min};
ghost use Rattle.std.proofs.lemmas.List.Edits.{sets};
ghost use Rattle.console.specs.Settings.{empty_tables, place_in, numbers_of, numbers_end, ends_well, text_fits, words_set, bytes_set, ROM_ROOM, rom_of, rom_put, rom_set, table_of, is_shown, line_shown, table_set, table_known, line_set, set_known, fresh_tables};

use crate::numbers::{number, number_at};
use crate::printing::print_record;
use crate::texts::text_of;
use crate::words::{after_word, first_word, index_of, past_words, word};
use tables::layout::{
    BLOCK, CONTENTS_SIZE, FILE_WIDTH, FILES_SIZE, LABELS, OPEN_FILE_WIDTH, OPEN_FILES_SIZE,
    POLICY_SIZE, PROCESS_WIDTH, PROCESSES_SIZE, RIGHTS_SIZE,
};
use tables::parts::upto;
use tables::words::{copy, fill};

// Room for the factory part: more than 16 prompts of 512 bytes take, so that parts of too many can be set too.
const ROM_ROOM: usize = 9216;

// The tables that a line may name.
#[derive(Clone, Copy)]
enum Table {
    Files,
    Opens,
    Processes,
    Contents,
    Policy,
    Rom,
}

const TABLES: [Table; 6] = [
    Table::Files,
    Table::Opens,
    Table::Processes,
    Table::Contents,
    Table::Policy,
    Table::Rom,
];

// The factory part is the first `size` bytes of its room.
#[derive(Clone, Copy)]
pub(crate) struct Rom {
    room: [u8; ROM_ROOM],
    size: usize,
}

impl Rom {
    pub(crate) fn bytes(&self) -> &[u8]
        ensures { result.now ≡ rom_of self.now }
    {
        upto(&self.room, self.size)
    }
}

#[derive(Clone, Copy)]
pub(crate) struct Console {
    pub(crate) files: [u32; FILES_SIZE],
    pub(crate) contents: [u8; CONTENTS_SIZE],
    pub(crate) open_files: [u32; OPEN_FILES_SIZE],
    pub(crate) processes: [u32; PROCESSES_SIZE],
    pub(crate) policy: [u8; POLICY_SIZE],
    pub(crate) rom: Rom,
}

// No files, no processes, no rights, no transitions and no prompts.
pub(crate) fn empty() -> Console
    ensures { result ≡ empty_tables }
{
    let mut policy = [255u8; POLICY_SIZE];
    fill(&mut policy, 0, RIGHTS_SIZE, 0);
    Console {
        files: [0u32; FILES_SIZE],
        contents: [0u8; CONTENTS_SIZE],
        open_files: [0u32; OPEN_FILES_SIZE],
        processes: [0u32; PROCESSES_SIZE],
        policy,
        rom: Rom {
            room: [0u8; ROM_ROOM],
            size: 0,
        },
    }
}

// The first word from word 4 on that is no number. The line is taken word by word: to find each word from the line's
// start would scan it once for each number.
fn numbers_end(line: &[u8]) -> usize
    ensures { result ≡ numbers_end line.now }
{
    let mut rest = past_words(line, 4);
    for k in 4..line.len() {
        if number(first_word(rest)).is_none() {
            return k;
        }
        rest = after_word(rest);
    }
    line.len()
}

// The values of a line, from word 4 on, are numbers.
#[tactic(auto, unfolding(crate::specs::Settings::ends_well))]
fn ends_well(line: &[u8]) -> bool
    ensures { result ≡ ends_well line.now }
{
    word(line, numbers_end(line)).is_empty()
}

// The words of a table from `at` on become the line's numbers.
fn put_numbers(words: &mut [u32], at: usize, line: &[u8])
    ensures { words.new ≡ sets words.old at (numbers_of line.now) }
{
    let room = words.len().saturating_sub(at);
    let mut rest = past_words(line, 4);
    for i in 0..room.min(line.len().saturating_sub(4)) {
        let Some(n) = number(first_word(rest)) else {
            return;
        };
        words[at + i] = n;
        rest = after_word(rest);
    }
}

// Where field k of record i is in a table of records of `width` words or bytes.
fn place(width: usize, i: u32, k: u32) -> usize
    requires { width ≤ 512 }
    ensures { result ≡ place_in width i k }
{
    width * i as usize + k as usize
}

// Words of a table become the line's numbers.
fn set_words(words: &mut [u32], at: usize, line: &[u8]) -> bool
    ensures known { result ≡ ends_well line.now }
    ensures words { words.new ≡ words_set line.now at words.old }
{
    if ends_well(line) {
        put_numbers(words, at, line);
        true
    } else {
        false
    }
}

// Bytes of a table become the line's text.
#[tactic(auto, unfolding(crate::specs::Settings::text_put))]
fn set_bytes(bytes: &mut [u8], at: usize, line: &[u8]) -> bool
    ensures known { result ≡ text_fits line.now }
    ensures bytes { bytes.new ≡ bytes_set line.now at bytes.old }
{
    let mut room = [0u8; 512];
    match text_of(word(line, 4), &mut room) {
        Some(text) => {
            copy(bytes, at, text);
            true
        }
        None => false,
    }
}

// Where n bytes end that are stored from `at` on in the factory part's room.
fn rom_end(at: usize, n: usize) -> usize
    ensures { result ≡ min (at + n) ROM_ROOM }
{
    let from = at.min(ROM_ROOM);
    from + n.min(ROM_ROOM - from)
}

// The factory part from `at` on becomes the text, and ends with it. What stood past its end, or past `at`, is made 0
// first, so that a part that was shorter has 0 before the text.
#[tactic(auto, unfolding(crate::specs::Settings::rom_put))]
fn put_rom(rom: &mut Rom, at: usize, text: &[u8])
    ensures { rom.new ≡ rom_put at text.now rom.old }
{
    let end = rom.size.min(at);
    fill(&mut rom.room, end, ROM_ROOM, 0);
    copy(&mut rom.room, at, text);
    rom.size = rom_end(at, text.len());
}

#[tactic(auto, unfolding(crate::specs::Settings::rom_written))]
fn set_rom(rom: &mut Rom, at: usize, line: &[u8]) -> bool
    ensures known { result ≡ text_fits line.now }
    ensures rom { rom.new ≡ rom_set line.now at rom.old }
{
    let mut room = [0u8; 512];
    match text_of(word(line, 4), &mut room) {
        Some(text) => {
            put_rom(rom, at, text);
            true
        }
        None => false,
    }
}

// The table that the line names.
fn table_of(line: &[u8]) -> Option<Table>
    ensures { result ≡ table_of line.now }
{
    let k = index_of(b"files opens processes contents policy rom", word(line, 1))?;
    TABLES.get(k).copied()
}

#[tactic(auto, unfolding(crate::specs::Settings::table_set, crate::specs::Settings::table_known))]
fn set_table(s: &mut Console, table: Option<Table>, i: u32, k: u32, line: &[u8]) -> bool
    ensures known { result ≡ table_known table line.now }
    ensures tables { s.new ≡ table_set table i k line.now s.old }
{
    match table {
        Some(Table::Files) => set_words(&mut s.files, place(FILE_WIDTH, i, k), line),
        Some(Table::Opens) => set_words(&mut s.open_files, place(OPEN_FILE_WIDTH, i, k), line),
        Some(Table::Processes) => set_words(&mut s.processes, place(PROCESS_WIDTH, i, k), line),
        Some(Table::Contents) => set_bytes(&mut s.contents, place(BLOCK, i, k), line),
        Some(Table::Policy) => set_bytes(&mut s.policy, place(LABELS, i, k), line),
        Some(Table::Rom) => set_rom(&mut s.rom, place(BLOCK, i, k), line),
        None => false,
    }
}

// set TABLE RECORD FIELD, then numbers or a text: whether it is understood, and the tables after it.
#[tactic(auto, unfolding(crate::specs::Settings::line_set, crate::specs::Settings::record_set, crate::specs::Settings::record_known))]
pub(crate) fn set_line(s: &mut Console, line: &[u8]) -> bool
    ensures known { result ≡ set_known line.now }
    ensures tables { s.new ≡ line_set line.now s.old }
{
    let Some(i) = number_at(line, 2) else {
        return false;
    };
    let Some(k) = number_at(line, 3) else {
        return false;
    };
    set_table(s, table_of(line), i, k, line)
}

// Writes record i of a table of words; of no other.
#[tactic(auto, unfolding(crate::specs::Settings::is_shown))]
fn show_record(s: &Console, table: Option<Table>, i: usize) -> bool
    requires { i < 4294967296 }
    ensures { result ≡ is_shown table }
{
    match table {
        Some(Table::Files) => print_record(&s.files, FILE_WIDTH * i, FILE_WIDTH),
        Some(Table::Opens) => print_record(&s.open_files, OPEN_FILE_WIDTH * i, OPEN_FILE_WIDTH),
        Some(Table::Processes) => print_record(&s.processes, PROCESS_WIDTH * i, PROCESS_WIDTH),
        Some(Table::Contents | Table::Policy | Table::Rom) | None => return false,
    }
    true
}

// show TABLE RECORD, of a table of words: whether it is understood.
#[tactic(auto, unfolding(crate::specs::Settings::record_shown))]
pub(crate) fn show_line(s: &Console, line: &[u8]) -> bool
    ensures { result ≡ line_shown line.now }
{
    match number_at(line, 2) {
        Some(i) => show_record(s, table_of(line), i as usize),
        None => false,
    }
}

// The tables that the set lines of the script's head give. An empty line ends the head.
pub(crate) fn fresh(script: &[u8]) -> Console
    ensures { result ≡ fresh_tables script.now }
{
    script
        .split(|b| *b == b'\n')
        .take_while(|line| !line.is_empty())
        .fold(empty(), |mut s, line| {
            set_line(&mut s, line);
            s
        })
}
