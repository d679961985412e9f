// Bytes read from lower-case hex, two digits each.
ghost use Rattle.std.specs.Prelude.{◌≡◌, ◌+◌, ◌-◌, ◌*◌, ◌%◌, min, length};
ghost use Rattle.std.proofs.lemmas.List.Edits.{sets};
ghost use Rattle.script_rules.specs.Text.{hex_value};
ghost use Rattle.script_text.specs.Hex.{pairs};

// What a digit of hex stands for.
#[tactic(auto, unfolding(script_rules::specs::Text::hex_value))]
fn hex_value(b: u8) -> u8
    ensures { result ≡ hex_value b }
{
    if b <= b'9' {
        b.saturating_sub(b'0')
    } else {
        b.saturating_sub(b'a' - 10)
    }
}

// The byte that two digits write.
fn hex_pair(a: u8, b: u8) -> u8
    ensures { result ≡ (hex_value a * 16 + hex_value b) % 256 }
{
    hex_value(a).wrapping_mul(16).wrapping_add(hex_value(b))
}

// The bytes that the digits write, as many as there is room for, and how many.
pub fn read_bytes(text: &[u8], room: &mut [u8]) -> usize
    ensures bytes { room.new ≡ sets room.old 0 (pairs text.now) }
    ensures count { result ≡ min (length (pairs text.now)) (length room.old) }
{
    let n = (text.len() / 2).min(room.len());
    for i in 0..n {
        room[i] = hex_pair(text[2 * i], text[2 * i + 1]);
    }
    n
}
