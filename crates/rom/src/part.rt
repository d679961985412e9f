// The factory part: prompts in turn, each a length of two bytes, little end first, and its bytes.
ghost use Rattle.std.specs.Prelude.{◌≡◌, cond, [], ltb, length};
ghost use Rattle.rules.specs.Layout.{PROMPTS};
ghost use Rattle.rules.specs.Rom.{prompt_length, next_prompt, rom_from, prompt_count, prompt_sound, prompts_sound, rom_sound, first_prompt, prompt};
ghost use Rattle.rom.specs.Rest.{prompt_rest};

use tables::layout::{LENGTH_MAX, PROMPTS};
use tables::numbers::smaller;
use tables::parts::{after, upto};
use tables::words::get_or;

#[tactic(auto, unfolding(rules::specs::Rom::prompt_length))]
fn prompt_length(part: &[u8]) -> u32
    ensures { result ≡ prompt_length part.now }
{
    u32::from(u16::from_le_bytes([get_or(part, 0, 0), get_or(part, 1, 0)]))
}

// What follows the first prompt.
fn next_prompt(part: &[u8]) -> &[u8]
    ensures { result.now ≡ next_prompt part.now }
{
    after(part, 2 + prompt_length(part) as usize)
}

// The part from prompt k on.
fn rom_from(k: u32, part: &[u8]) -> &[u8]
    ensures { result.now ≡ rom_from k part.now }
{
    let mut part = part;
    for _ in 0..k {
        part = next_prompt(part);
    }
    part
}

// The bytes of the first prompt.
fn first_prompt(part: &[u8]) -> &[u8]
    ensures { result.now ≡ first_prompt part.now }
{
    upto(after(part, 2), prompt_length(part) as usize)
}

// The part from prompt k on; there is no seventeenth.
fn part_of(rom: &[u8], k: u32) -> &[u8]
    ensures { result.now ≡ cond (ltb k PROMPTS) (rom_from k rom.now) [] }
{
    if k < PROMPTS {
        return rom_from(k, rom);
    }
    upto(rom, 0)
}

// The bytes of prompt k.
#[tactic(auto, using(crate::proofs::Prompts::prompt_of))]
pub fn prompt(rom: &[u8], k: u32) -> &[u8]
    ensures { result.now ≡ prompt rom.now k }
{
    first_prompt(part_of(rom, k))
}

// The part from the first byte of prompt k on: a tail of it, so that its length says where it begins.
#[tactic(auto, using(crate::proofs::Prompts::rest_of))]
pub fn prompt_rest(rom: &[u8], k: u32) -> &[u8]
    ensures { result.now ≡ prompt_rest rom.now k }
{
    after(part_of(rom, k), 2)
}

fn first_length(part: &[u8]) -> u32
    ensures { result ≡ length (first_prompt part.now) }
{
    smaller(after(part, 2).len(), prompt_length(part))
}

// How long prompt k is.
#[tactic(auto, using(crate::proofs::Prompts::size_of))]
pub fn prompt_size(rom: &[u8], k: u32) -> u32
    ensures { result ≡ length (prompt rom.now k) }
{
    first_length(part_of(rom, k))
}

// How many prompts there are, n at most.
fn count_from(n: u32, part: &[u8]) -> u32
    ensures { result ≡ prompt_count n part.now }
{
    let mut part = part;
    for k in 0..n {
        if part.is_empty() {
            return k;
        }
        part = next_prompt(part);
    }
    n
}

pub fn prompt_count(rom: &[u8]) -> u32
    ensures { result ≡ prompt_count PROMPTS rom.now }
{
    count_from(PROMPTS, rom)
}

// The first prompt is whole, and of at most 512 bytes.
#[tactic(auto, unfolding(rules::specs::Rom::prompt_sound, rules::specs::Choice::every))]
fn prompt_sound(part: &[u8]) -> bool
    ensures { result ≡ prompt_sound part.now }
{
    let n = prompt_length(part);
    n <= LENGTH_MAX && 2 + n as usize <= part.len()
}

// At most n prompts, each sound, and nothing after them.
fn prompts_sound(n: u32, part: &[u8]) -> bool
    ensures { result ≡ prompts_sound n part.now }
{
    let mut part = part;
    for _ in 0..n {
        if part.is_empty() {
            return true;
        }
        if !prompt_sound(part) {
            return false;
        }
        part = next_prompt(part);
    }
    part.is_empty()
}

// The factory part is sound.
pub fn rom_sound(rom: &[u8]) -> bool
    ensures { result ≡ rom_sound rom.now }
{
    prompts_sound(PROMPTS, rom)
}
