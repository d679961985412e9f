// A line of a block: its key, its text, byte 10. Parts of the script are handed on, never copied.
ghost use Rattle.std.specs.Prelude.{◌≡◌, eqb, get_or};
ghost use Rattle.rules.specs.Paths.{span};
ghost use Rattle.script_rules.specs.Text.{NEWLINE, not_newline, is_digit, is_letter, is_hex};
ghost use Rattle.script_rules.specs.Blocks.{key_of, in_text, has_key, after_key, text_length, text_of, line_ok, after_line};

use script_rules::line::Line;
use tables::names::same_at;
use tables::parts::{after, upto};
use tables::words::get_or;

// A decimal digit.
#[tactic(auto, unfolding(script_rules::specs::Text::is_digit, rules::specs::Choice::every))]
pub fn is_digit(b: u8) -> bool
    ensures { result ≡ is_digit b }
{
    b.is_ascii_digit()
}

#[tactic(auto, unfolding(script_rules::specs::Text::is_letter, rules::specs::Choice::every))]
fn is_letter(b: u8) -> bool
    ensures { result ≡ is_letter b }
{
    matches!(b, b'a'..=b'f')
}

#[tactic(auto, unfolding(script_rules::specs::Text::is_hex, rules::specs::Choice::some))]
fn is_hex(b: u8) -> bool
    ensures { result ≡ is_hex b }
{
    is_digit(b) || is_letter(b)
}

#[tactic(auto, unfolding(script_rules::specs::Text::not_newline))]
fn not_newline(b: u8) -> bool
    ensures { result ≡ not_newline b }
{
    b != b'\n'
}

fn in_text(b: u8, l: Line) -> bool
    ensures { result ≡ in_text l b }
{
    match l {
        Line::Proc | Line::Call | Line::Fd | Line::Arg => is_digit(b),
        Line::Path => not_newline(b),
        Line::Data => is_hex(b),
    }
}

// How long the text of a line is that has only its key before it.
fn text_length(s: &[u8], l: Line) -> usize
    ensures { result ≡ span (in_text l) s.now }
{
    s.iter().take_while(|b| in_text(**b, l)).count()
}

fn key(l: Line) -> &'static [u8]
    ensures { result.now ≡ key_of l }
{
    match l {
        Line::Proc => b"proc=",
        Line::Call => b"call=",
        Line::Fd => b"fd=",
        Line::Arg => b"arg=",
        Line::Path => b"path=",
        Line::Data => b"data=",
    }
}

// The text begins with the key; bytes past its end count as 0.
pub fn begins_with(s: &[u8], key: &[u8]) -> bool
    ensures { result ≡ has_key key.now s.now }
{
    (0..key.len()).all(|k| same_at(s, key, k))
}

fn has_key(s: &[u8], l: Line) -> bool
    ensures { result ≡ has_key (key_of l) s.now }
{
    begins_with(s, key(l))
}

fn after_key(s: &[u8], l: Line) -> &[u8]
    ensures { result.now ≡ after_key l s.now }
{
    after(s, key(l).len())
}

fn text_ends(s: &[u8], l: Line) -> bool
    ensures { result ≡ eqb (get_or (after_key l s.now) (text_length l s.now) 0) NEWLINE }
{
    let t = after_key(s, l);
    get_or(t, text_length(t, l), 0) == b'\n'
}

// The line has its key, and its text ends with byte 10.
#[tactic(auto, unfolding(script_rules::specs::Blocks::line_ok, rules::specs::Choice::every))]
pub fn line_ok(s: &[u8], l: Line) -> bool
    ensures { result ≡ line_ok l s.now }
{
    has_key(s, l) && text_ends(s, l)
}

#[tactic(auto, unfolding(script_rules::specs::Blocks::text_of))]
pub fn text(s: &[u8], l: Line) -> &[u8]
    ensures { result.now ≡ text_of l s.now }
{
    let t = after_key(s, l);
    upto(t, text_length(t, l))
}

// The lines after it.
#[tactic(auto, unfolding(script_rules::specs::Blocks::after_line))]
pub fn after_line(s: &[u8], l: Line) -> &[u8]
    ensures { result.now ≡ after_line l s.now }
{
    let t = after_key(s, l);
    after(after(t, text_length(t, l)), 1)
}
