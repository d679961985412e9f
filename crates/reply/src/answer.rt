// The answer of a call, and the reader's buffer.
ghost use Rattle.std.specs.Prelude.{◌≡◌, ℕ, List, min, length, take, drop};
ghost use Rattle.rules.specs.Store.{store, shown_of, words};
ghost use Rattle.rules.specs.Refusals.{refusal_number};
ghost use Rattle.rules.specs.Directories.{padded, dirent_name};
ghost use Rattle.rules.specs.Rom.{rom_dirents, with_rom, seen_dirents};
ghost use Rattle.rules.specs.Step.{bytes_of, into};
ghost use Rattle.reply.specs.Answers.{plain, named, with_name, with_fields, said, said_of};

use directories::entries::dirent_name;
use directories::seen::{prompt_entries, rom_size, root_entries};
use rom::seen::bytes_of;
use rules::answer::Answer;
use rules::decision::{Output, Record, Stop};
use rules::ids::{Dirent, Slot};
use tables::files::shown;
use tables::layout::ROM;
use tables::numbers::smaller;
use tables::parts::{after, upto};
use tables::words::copy;

// An answer of numbers alone.
#[tactic(auto, unfolding(rules::specs::Directories::padded))]
pub fn plain_answer(refusal: u32, stop: u32, value: u32) -> Answer
    ensures { result ≡ plain refusal stop value }
{
    Answer {
        refusal: refusal,
        stop: stop,
        value: value,
        name_length: 0,
        name: [0; 16],
        fields: [0; 8],
    }
}

pub fn refused_answer(stop: Stop) -> Answer
    ensures { result ≡ plain (refusal_number stop.refusal) stop.name 0 }
{
    plain_answer(stop.refusal.number(), stop.name, 0)
}

// The name, then 0.
fn padded_name(name: &[u8]) -> [u8; 16]
    ensures { result ≡ padded 16 name.now }
{
    let mut all = [0u8; 16];
    copy(&mut all, 0, upto(name, 16));
    all
}

// A listed name.
#[tactic(auto, unfolding(rules::specs::Directories::padded))]
fn answer_named(value: u32, name: &[u8]) -> Answer
    ensures { result ≡ named value (min (length name.now) 16) (padded 16 name.now) }
{
    Answer {
        name_length: smaller(name.len(), 16),
        name: padded_name(name),
        ..plain_answer(0, 0, value)
    }
}

fn answer_in_root(files: &[u32], contents: &[u8], value: u32, i: Dirent) -> Answer
    ensures { result ≡ with_name value (dirent_name (with_rom (shown_of files.now contents.now 0)) i) }
{
    let all = root_entries(shown(files, contents, Slot(0)));
    answer_named(value, dirent_name(&all, i))
}

fn answer_in_rom(rom: &[u8], value: u32, i: Dirent) -> Answer
    ensures { result ≡ with_name value (dirent_name (rom_dirents rom.now) i) }
{
    let all = prompt_entries();
    answer_named(value, dirent_name(upto(&all, rom_size(rom)), i))
}

fn answer_in_own(files: &[u32], contents: &[u8], value: u32, d: Slot, i: Dirent) -> Answer
    ensures { result ≡ with_name value (dirent_name (shown_of files.now contents.now d.0) i) }
{
    answer_named(value, dirent_name(shown(files, contents, d), i))
}

// The name of entry i of those that directory d is seen with.
fn answer_listed(
    files: &[u32],
    contents: &[u8],
    rom: &[u8],
    value: u32,
    d: Slot,
    i: Dirent,
) -> Answer
    ensures { result ≡ with_name value (dirent_name (seen_dirents rom.now (shown_of files.now contents.now) d.0) i) }
{
    let is_root = d.0 == 0;
    if is_root {
        return answer_in_root(files, contents, value, i);
    }
    let is_rom = d.0 == ROM;
    if is_rom {
        return answer_in_rom(rom, value, i);
    }
    answer_in_own(files, contents, value, d, i)
}

// A file's fields.
#[tactic(auto, unfolding(rules::specs::Directories::padded))]
fn answer_fields(value: u32, r: Record) -> Answer
    ensures { result ≡ with_fields value (words r) }
{
    let bits = r.bits;
    Answer {
        fields: [
            r.kind, r.owner, r.group, bits.0, r.label, r.length, r.links, r.version,
        ],
        ..plain_answer(0, 0, value)
    }
}

// Bytes of a file into the buffer; those past them stay.
fn read_into<'a>(contents: &'a [u8], rom: &'a [u8], buffer: &mut [u8], s: Slot, from: u32, n: u32)
    ensures { buffer.new ≡ into buffer.old (take n (drop from (bytes_of rom.now contents.now s))) }
{
    let part = upto(after(bytes_of(contents, rom, s), from as usize), n as usize);
    copy(buffer, 0, part);
}

// The answer of a granted call, and the buffer. Contents and factory part are lent for as long as each other, since what is read is a part of one of them.
pub fn say<'a>(
    files: &[u32],
    contents: &'a [u8],
    rom: &'a [u8],
    buffer: &mut [u8],
    value: u32,
    o: Output,
) -> Answer
    ensures { (E P : List ℕ) → said result buffer.new ≡ said_of rom.now (store files.now contents.now E P) value o buffer.old }
{
    match o {
        Output::Nothing => plain_answer(0, 0, value),
        Output::Name(d, i) => answer_listed(files, contents, rom, value, d, i),
        Output::Fields(r) => answer_fields(value, r),
        Output::Bytes(s, from, n) => {
            read_into(contents, rom, buffer, s, from, n);
            plain_answer(0, 0, value)
        }
    }
}
