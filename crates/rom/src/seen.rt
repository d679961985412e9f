// A file's record as the rules see it: a stored one, or that of a file of the factory part, whose columns are known.
ghost use Rattle.std.specs.Prelude.{◌≡◌, cond, eqb, length, take, ◌-◌};
ghost use Rattle.rules.specs.Layout.{SLOTS, PROMPTS, ROM, FILE_KIND, FILE_OWNER, FILE_GROUP, FILE_BITS, FILE_LABEL, FILE_LENGTH, FILE_LINKS, FILE_VERSION, PLAIN, DIRECTORY, LINK};
ghost use Rattle.rules.specs.Store.{is_slot, bits_at, shown_of};
ghost use Rattle.rules.specs.Rom.{prompt, prompt_count, files_in, length_in, record_of};
ghost use Rattle.rules.specs.Step.{bytes_of};
ghost use Rattle.rom.specs.Columns.{by_number};

use crate::part::{prompt, prompt_count, prompt_size};
use rules::decision::Record;
use rules::ids::Slot;
use rules::rights::Bits;
use tables::files::{bytes, shown};
use tables::ids::is_slot;
use tables::layout::{DIRECTORY, LINK, PLAIN, ROM, SLOTS};
use tables::parts::upto;

// The bits of a prompt, 0444, and of /rom, 0555.
const PROMPT_BITS: u32 = 292;

const ROM_BITS: u32 = 365;

// A column of file s: of a stored one what is stored, of the part's files one number for prompts and one for /rom.
#[tactic(auto, unfolding(crate::specs::Columns::by_number))]
fn seen(s: Slot, stored: u32, prompt: u32, rom: u32) -> u32
    ensures { result ≡ cond (is_slot s) stored (by_number s prompt rom) }
{
    if is_slot(s) {
        return stored;
    }
    if s.0 < ROM {
        return prompt;
    }
    if s.0 == ROM {
        return rom;
    }
    0
}

#[tactic(auto, using(crate::proofs::Columns::seen_is))]
pub fn kind(files: &[u32], s: Slot) -> u32
    ensures { result ≡ files_in files.now s.0 FILE_KIND }
{
    seen(s, tables::files::kind(files, s), PLAIN, DIRECTORY)
}

#[tactic(auto, using(crate::proofs::Columns::seen_is))]
pub fn owner(files: &[u32], s: Slot) -> u32
    ensures { result ≡ files_in files.now s.0 FILE_OWNER }
{
    seen(s, tables::files::owner(files, s), 0, 0)
}

#[tactic(auto, using(crate::proofs::Columns::seen_is))]
pub fn group(files: &[u32], s: Slot) -> u32
    ensures { result ≡ files_in files.now s.0 FILE_GROUP }
{
    seen(s, tables::files::group(files, s), 0, 0)
}

#[tactic(auto, using(crate::proofs::Columns::seen_is))]
pub fn bits(files: &[u32], s: Slot) -> Bits
    ensures { result ≡ bits_at (files_in files.now s.0 FILE_BITS) }
{
    Bits(seen(s, tables::files::bits(files, s).0, PROMPT_BITS, ROM_BITS))
}

#[tactic(auto, using(crate::proofs::Columns::seen_is))]
pub fn label(files: &[u32], s: Slot) -> u32
    ensures { result ≡ files_in files.now s.0 FILE_LABEL }
{
    seen(s, tables::files::label(files, s), 0, 0)
}

// 0 of the part's files: how long they are is asked of the part, by `length_in`.
#[tactic(auto, using(crate::proofs::Columns::seen_is))]
pub fn length(files: &[u32], s: Slot) -> u32
    ensures { result ≡ files_in files.now s.0 FILE_LENGTH }
{
    seen(s, tables::files::length(files, s), 0, 0)
}

#[tactic(auto, using(crate::proofs::Columns::seen_is))]
pub fn links(files: &[u32], s: Slot) -> u32
    ensures { result ≡ files_in files.now s.0 FILE_LINKS }
{
    seen(s, tables::files::links(files, s), 1, 1)
}

#[tactic(auto, using(crate::proofs::Columns::seen_is))]
pub fn version(files: &[u32], s: Slot) -> u32
    ensures { result ≡ files_in files.now s.0 FILE_VERSION }
{
    seen(s, tables::files::version(files, s), 0, 0)
}

pub fn is_plain(files: &[u32], s: Slot) -> bool
    ensures { result ≡ eqb (files_in files.now s.0 FILE_KIND) PLAIN }
{
    kind(files, s) == PLAIN
}

pub fn is_directory(files: &[u32], s: Slot) -> bool
    ensures { result ≡ eqb (files_in files.now s.0 FILE_KIND) DIRECTORY }
{
    kind(files, s) == DIRECTORY
}

pub fn is_link(files: &[u32], s: Slot) -> bool
    ensures { result ≡ eqb (files_in files.now s.0 FILE_KIND) LINK }
{
    kind(files, s) == LINK
}

fn length_in_rom(rom: &[u8], s: Slot) -> u32
    ensures { result ≡ cond (eqb s.0 ROM) (prompt_count PROMPTS rom.now) (length (prompt rom.now (s.0 - SLOTS))) }
{
    if s.0 == ROM {
        return prompt_count(rom);
    }
    prompt_size(rom, s.0.saturating_sub(SLOTS))
}

// The length of any file: what stat and a read ask.
#[tactic(auto, unfolding(rules::specs::Rom::length_in))]
pub fn length_in(files: &[u32], rom: &[u8], s: Slot) -> u32
    ensures { result ≡ length_in rom.now (files_in files.now) s }
{
    if is_slot(s) {
        return length(files, s);
    }
    length_in_rom(rom, s)
}

// The record of any file: what stat answers.
pub fn record(files: &[u32], rom: &[u8], s: Slot) -> Record
    ensures { result ≡ record_of rom.now (files_in files.now) s }
{
    Record {
        kind: kind(files, s),
        owner: owner(files, s),
        group: group(files, s),
        bits: bits(files, s),
        label: label(files, s),
        length: length_in(files, rom, s),
        links: links(files, s),
        version: version(files, s),
    }
}

// A link's text.
pub fn link_text<'a>(files: &[u32], contents: &'a [u8], s: Slot) -> &'a [u8]
    ensures { result.now ≡ take (files_in files.now s.0 FILE_LENGTH) (shown_of files.now contents.now s.0) }
{
    let n = length(files, s);
    let all = shown(files, contents, s);
    upto(all, n as usize)
}

// The bytes of any file: a part of one of the two, whichever has it.
#[tactic(auto, unfolding(rules::specs::Step::bytes_of))]
pub fn bytes_of<'a>(contents: &'a [u8], rom: &'a [u8], s: Slot) -> &'a [u8]
    ensures { result.now ≡ bytes_of rom.now contents.now s }
{
    if is_slot(s) {
        return bytes(contents, s);
    }
    prompt(rom, s.0.saturating_sub(SLOTS))
}
