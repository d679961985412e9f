// A block: six lines.
ghost use Rattle.std.specs.Prelude.{◌≡◌, [], ◌∷◌, length};
ghost use Rattle.rules.specs.Choice.{every};
ghost use Rattle.rules.specs.Calls.{operation_of, uses};
ghost use Rattle.rules.specs.Written.{numbers_fit};
ghost use Rattle.script_rules.specs.Text.{bytes_of};
ghost use Rattle.script_rules.specs.Blocks.{text_of, data_line_ok, text_lines_ok, parts_ok, from_path};
ghost use Rattle.script_rules.specs.declared.line.Line.TheVariants as line;
ghost use Rattle.script_input.specs.Read.{number_read, numbers_read, numbered, numbers_ok, lengths_used, read_ok};

use crate::requests::as_byte;
use rules::request::Parts;
use script_rules::line::Line;
use script_text::lines::{after_line, line_ok, text};
use script_text::numbers::read_number;
use tables::calls::{operation_of, uses};

// A script's largest number.
pub(crate) const NUMBER_MAX: u32 = 65535;

// A block's numbers. Those of a block that is read are at most `NUMBER_MAX`.
#[derive(Clone, Copy)]
pub struct Numbers {
    pub process: u32,
    pub call: u32,
    pub fd: u32,
    pub number: u32,
}

// The number of a line, none where the line is broken.
#[tactic(auto, unfolding(crate::specs::Read::number_read, script_text::specs::Numbers::number_read, script_rules::specs::Blocks::number_line_ok, rules::specs::Choice::every))]
fn number_in(s: &[u8], l: Line) -> Option<u16>
    ensures { result ≡ number_read l s.now }
{
    if line_ok(s, l) {
        read_number(text(s, l))
    } else {
        None
    }
}

// The numbers of the block that s begins with, none where the line of one is broken.
#[tactic(auto, unfolding(crate::specs::Read::number_read, script_rules::specs::Blocks::number_lines_ok, script_rules::specs::Blocks::head_lines_ok, script_rules::specs::Blocks::operand_lines_ok, rules::specs::Choice::every))]
pub fn read_numbers(s: &[u8]) -> Option<Numbers>
    ensures { result ≡ numbers_read s.now }
{
    let from_call = after_line(s, Line::Proc);
    let from_fd = after_line(from_call, Line::Call);
    let from_arg = after_line(from_fd, Line::Fd);
    Some(Numbers {
        process: u32::from(number_in(s, Line::Proc)?),
        call: u32::from(number_in(from_call, Line::Call)?),
        fd: u32::from(number_in(from_fd, Line::Fd)?),
        number: u32::from(number_in(from_arg, Line::Arg)?),
    })
}

// The block from its path's line on.
pub fn from_path(s: &[u8]) -> &[u8]
    ensures { result.now ≡ from_path s.now }
{
    let from_fd = after_line(after_line(s, Line::Proc), Line::Call);
    after_line(after_line(from_fd, Line::Fd), Line::Arg)
}

#[tactic(auto, unfolding(crate::specs::Read::numbers_ok, crate::specs::Read::head_ok, crate::specs::Read::operands_ok, rules::specs::Choice::every))]
fn numbers_ok(n: Numbers) -> bool
    ensures { result ≡ numbers_ok n }
{
    n.process <= NUMBER_MAX && n.call <= NUMBER_MAX && n.fd <= NUMBER_MAX && n.number <= NUMBER_MAX
}

#[tactic(auto, unfolding(script_rules::specs::Blocks::data_line_ok, script_rules::specs::Text::hex_ok, rules::specs::Choice::every))]
fn data_line_ok(s: &[u8]) -> bool
    ensures { result ≡ data_line_ok s.now }
{
    line_ok(s, Line::Data) && text(s, Line::Data).len() % 2 == 0
}

#[tactic(auto, unfolding(script_rules::specs::Blocks::text_lines_ok, rules::specs::Choice::every))]
fn text_lines_ok(p: &[u8], d: &[u8]) -> bool
    ensures { result ≡ text_lines_ok p.now d.now }
{
    line_ok(p, Line::Path) && data_line_ok(d)
}

// How many bytes the digits of hex write.
pub fn bytes_count(t: &[u8]) -> usize
    ensures { result ≡ length (bytes_of t.now) }
{
    t.len() / 2
}

// A part that is unused is 0.
#[tactic(auto, unfolding(rules::specs::Written::numbers_fit, rules::specs::Choice::every, rules::specs::Choice::implies))]
fn numbers_used(u: Parts, n: Numbers) -> bool
    ensures { result ≡ numbers_fit u (numbered n [] []) }
{
    (u.fd || n.fd == 0) && (u.number || n.number == 0)
}

#[tactic(auto, unfolding(crate::specs::Read::lengths_used, rules::specs::Choice::every, rules::specs::Choice::implies))]
fn lengths_used(u: Parts, p: usize, b: usize) -> bool
    ensures { result ≡ lengths_used u p b }
{
    (u.path != 0 || p == 0) && (u.data != 0 || b == 0)
}

#[tactic(auto, unfolding(rules::specs::Choice::every))]
fn parts_used(u: Parts, n: Numbers, p: usize, b: usize) -> bool
    ensures { result ≡ every (numbers_fit u (numbered n [] []) ∷ lengths_used u p b ∷ []) }
{
    numbers_used(u, n) && lengths_used(u, p, b)
}

fn parts_ok(n: Numbers, p: &[u8], d: &[u8]) -> bool
    ensures { result ≡ parts_ok (uses (operation_of n.call)) (numbered n (text_of line.Path p.now) (bytes_of (text_of line.Data d.now))) }
{
    let u = uses(operation_of(as_byte(n.call)));
    parts_used(
        u,
        n,
        text(p, Line::Path).len(),
        bytes_count(text(d, Line::Data)),
    )
}

// Whether a block is unbroken: of its numbers, its path's line on, its data's line on.
#[tactic(auto, unfolding(crate::specs::Read::read_ok, rules::specs::Choice::every))]
pub fn block_ok(n: Numbers, p: &[u8], d: &[u8]) -> bool
    ensures { result ≡ read_ok n p.now d.now }
{
    numbers_ok(n) && text_lines_ok(p, d) && parts_ok(n, p, d)
}
