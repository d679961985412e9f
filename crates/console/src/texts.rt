// Texts, in which \xNN is byte NN.
ghost use Rattle.std.specs.Prelude.{◌≡◌, ◌<◌, IfSome};
ghost use Rattle.std.specs.Option.{option_copied};
ghost use Rattle.std.proofs.lemmas.List.Edits.{sets};
ghost use Rattle.console.specs.Texts.{hex_digit, escapes, escaped, first_byte, first_width, text_bytes, text_length, text_of};

use tables::parts::after;
use tables::words::{get_or, put};

fn hex_digit(b: u8) -> Option<u8>
    ensures is { result ≡ hex_digit b }
    ensures small { IfSome result (λ d. d < 16) }
{
    match b {
        b'0'..=b'9' => Some(b - b'0'),
        b'a'..=b'f' => Some(b - b'a' + 10),
        _ => None,
    }
}

#[tactic(auto, unfolding(crate::specs::Texts::escapes))]
fn escapes(text: &[u8]) -> bool
    ensures { result ≡ escapes text.now }
{
    get_or(text, 0, 0) == b'\\'
}

// The byte of a text that begins with a backslash.
#[tactic(auto, unfolding(crate::specs::Texts::escaped, crate::specs::Texts::hex_pair))]
fn escaped(text: &[u8]) -> Option<u8>
    ensures { result ≡ escaped text.now }
{
    if get_or(text, 1, 0) != b'x' {
        return None;
    }
    let high = hex_digit(get_or(text, 2, 0))?;
    let low = hex_digit(get_or(text, 3, 0))?;
    Some(16 * high + low)
}

// The first byte that a text writes.
#[tactic(auto, unfolding(crate::specs::Texts::first_byte))]
fn first_byte(text: &[u8]) -> Option<u8>
    ensures { result ≡ first_byte text.now }
{
    if escapes(text) {
        return escaped(text);
    }
    Some(get_or(text, 0, 0))
}

// How many bytes of the text write it.
#[tactic(auto, unfolding(crate::specs::Texts::first_width))]
fn first_width(text: &[u8]) -> usize
    ensures { result ≡ first_width text.now }
{
    if escapes(text) { 4 } else { 1 }
}

// The bytes that a text writes, and how many they are; none where it is broken.
fn unescape(text: &[u8], out: &mut [u8]) -> Option<usize>
    ensures count { result ≡ text_length text.now }
    ensures bytes { out.new ≡ sets out.old 0 (text_bytes text.now) }
{
    let mut i = 0;
    for n in 0..text.len() {
        if text.len() <= i {
            return Some(n);
        }
        let rest = after(text, i);
        let w = first_width(rest);
        let b = first_byte(rest)?;
        if text.len() - i < w {
            return None;
        }
        put(out, n, b);
        i += w;
    }
    Some(text.len())
}

// The bytes that a text writes, in the room that is lent for them; none where it is broken or they are more.
pub(crate) fn text_of<'a>(text: &[u8], room: &'a mut [u8; 512]) -> Option<&'a [u8]>
    ensures { option_copied result ≡ text_of text.now }
{
    let n = unescape(text, room)?;
    room.get(..n)
}
