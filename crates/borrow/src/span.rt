// The borrowing read as numbers, for C, to which no slice can be handed back: in which of the two memories the bytes are, and where.
ghost use Rattle.std.specs.Prelude.{◌≡◌, ◌+◌, ◌-◌, ◌*◌, length, drop};
ghost use Rattle.rules.specs.Layout.{BLOCK, SLOTS};
ghost use Rattle.rules.specs.Store.{fixed, store};
ghost use Rattle.rules.specs.Step.{step_borrow};
ghost use Rattle.rom.specs.Rest.{prompt_rest};
ghost use Rattle.borrow.specs.Lent.{lent_back, of_outcome};
ghost use Rattle.borrow.specs.Spans.{placed, memory_of, place_of, span_in, none, span_of, span_bytes};

use crate::judge::judge;
use crate::read::{move_on, part_of};
use allocation::held::ofd_held;
use rom::part::prompt_rest;
use rules::decision::{Decision, Grant, Output};
use rules::ids::{Fd, Pid, Slot};
use tables::ids::is_slot;
use tables::layout::{BLOCK, SLOTS};
use tables::lent::Tables;
use tables::numbers::{smaller, word_of};
use tables::parts::after;

// `value` bytes from `at` on, of the contents where `memory` is 0, of the factory part where it is 1. All are 0 where it is refused, but for the refusal.
#[repr(C)]
#[derive(Clone, Copy)]
pub struct Borrowed {
    pub refusal: u32,
    pub value: u32,
    pub memory: u32,
    pub at: u32,
}

// Where in a memory its tail `rest` begins.
fn place(memory: &[u8], rest: &[u8]) -> u32
    ensures { result ≡ placed memory.now rest.now }
{
    word_of(memory.len().saturating_sub(rest.len()))
}

fn place_in_contents(contents: &[u8], s: Slot, from: u32) -> u32
    ensures { result ≡ placed contents.now (drop (BLOCK * s.0 + from) contents.now) }
{
    place(
        contents,
        after(contents, BLOCK * (s.0 as usize) + (from as usize)),
    )
}

fn place_in_rom(rom: &[u8], s: Slot, from: u32) -> u32
    ensures { result ≡ placed rom.now (drop from (prompt_rest rom.now (s.0 - SLOTS))) }
{
    place(
        rom,
        after(prompt_rest(rom, s.0.saturating_sub(SLOTS)), from as usize),
    )
}

#[tactic(auto, unfolding(crate::specs::Spans::place_of))]
fn place_of(contents: &[u8], rom: &[u8], s: Slot, from: u32) -> u32
    ensures { result ≡ place_of rom.now contents.now s from }
{
    if is_slot(s) {
        place_in_contents(contents, s, from)
    } else {
        place_in_rom(rom, s, from)
    }
}

#[tactic(auto, unfolding(crate::specs::Spans::memory_of))]
fn memory_of(s: Slot) -> u32
    ensures { result ≡ memory_of s }
{
    if is_slot(s) { 0 } else { 1 }
}

fn span_in<'a>(contents: &'a [u8], rom: &'a [u8], s: Slot, from: u32, n: u32) -> Borrowed
    ensures { result ≡ span_in rom.now contents.now s from n }
{
    let part = part_of(contents, rom, s, from, n);
    Borrowed {
        refusal: 0,
        value: smaller(part.len(), n),
        memory: memory_of(s),
        at: place_of(contents, rom, s, from),
    }
}

fn nothing(refusal: u32) -> Borrowed
    ensures { result ≡ none refusal }
{
    Borrowed {
        refusal: refusal,
        value: 0,
        memory: 0,
        at: 0,
    }
}

#[tactic(auto, unfolding(crate::specs::Spans::span_of, crate::specs::Spans::span_out))]
fn span_of<'a>(contents: &'a [u8], rom: &'a [u8], d: Decision) -> Borrowed
    ensures { result ≡ span_of rom.now contents.now d }
{
    match d {
        Ok(
            Grant {
                output: Output::Bytes(s, from, n),
                ..
            },
        ) => span_in(contents, rom, s, from, n),
        Ok(_) => nothing(0),
        Err(stop) => nothing(stop.refusal.number()),
    }
}

// A borrowing read of up to n bytes, as numbers.
pub fn borrow_span<'a>(
    files: &[u32],
    contents: &'a [u8],
    open_files: &mut [u32],
    processes: &[u32],
    policy: &[u8],
    rom: &'a [u8],
    p: Pid,
    i: Fd,
    n: u32,
) -> Borrowed
    ensures outcome { lent_back result.refusal (span_bytes rom.now contents.now result) (store files.now contents.now open_files.new processes.now) ≡ of_outcome (step_borrow (fixed policy.now rom.now) (store files.now contents.now open_files.old processes.now) p i n) }
    ensures value { result.value ≡ length (span_bytes rom.now contents.now result) }
{
    let t = Tables {
        files: files,
        contents: contents,
        open_files: open_files,
        processes: processes,
        policy: policy,
        rom: rom,
    };
    let d = judge(&t, p, i, n);
    move_on(open_files, ofd_held(processes, p, i), d);
    span_of(contents, rom, d)
}
