// The call that a block asks for.
ghost use Rattle.std.specs.Prelude.{◌≡◌, [], ◌∷◌, leb};
ghost use Rattle.rules.specs.Choice.{every};
ghost use Rattle.rules.specs.Layout.{BLOCK};
ghost use Rattle.rules.specs.Written.{capped};
ghost use Rattle.script_rules.specs.Replay.{as_byte, reads, reads_too_much, call_for, room_for};
ghost use Rattle.script_input.specs.Read.{numbered, request_for};

use crate::blocks::{NUMBER_MAX, Numbers};
use rules::ids::{Fd, Pid};
use rules::request::Request;
use tables::calls::{operation_of, uses};
use tables::layout::BLOCK;

// The most that a read may ask for in a script.
const READ_MAX: u32 = BLOCK as u32;

// No process, call or descriptor has a number over 255: all such are as 255.
#[tactic(auto, unfolding(script_rules::specs::Replay::as_byte))]
pub fn as_byte(n: u32) -> u8
    ensures { result ≡ as_byte n }
{
    n.min(255) as u8
}

// No number of a call is over 65,535: all such are as 65,535.
#[tactic(auto, unfolding(rules::specs::Written::capped))]
fn as_number(n: u32) -> u16
    ensures { result ≡ capped n }
{
    n.min(NUMBER_MAX) as u16
}

fn is_read(n: Numbers) -> bool
    ensures { result ≡ reads (numbered n [] []) }
{
    uses(operation_of(as_byte(n.call))).reads
}

#[tactic(auto, unfolding(script_rules::specs::Replay::reads_too_much, rules::specs::Choice::every))]
fn reads_too_much(n: Numbers) -> bool
    ensures { result ≡ reads_too_much (numbered n [] []) }
{
    is_read(n) && READ_MAX < n.number
}

// A read of too much is malformed, as call 0 is.
#[tactic(auto, unfolding(script_rules::specs::Replay::call_for))]
fn call_for(n: Numbers) -> u8
    ensures { result ≡ call_for (numbered n [] []) }
{
    if reads_too_much(n) {
        0
    } else {
        as_byte(n.call)
    }
}

#[tactic(auto, unfolding(rules::specs::Choice::every))]
fn reads_well(n: Numbers) -> bool
    ensures { result ≡ every (reads (numbered n [] []) ∷ leb n.number BLOCK ∷ []) }
{
    is_read(n) && n.number <= READ_MAX
}

// How many bytes are lent for a read, of a file or of a link.
#[tactic(auto, unfolding(script_rules::specs::Replay::room_for))]
pub fn room_for(n: Numbers) -> usize
    ensures { result ≡ room_for (numbered n [] []) }
{
    if reads_well(n) { n.number as usize } else { 0 }
}

// The numbers of the call.
pub fn request_for(n: Numbers) -> Request
    ensures { result ≡ request_for n }
{
    Request {
        process: Pid(as_byte(n.process)),
        call: call_for(n),
        fd: Fd(as_byte(n.fd)),
        number: as_number(n.number),
    }
}
