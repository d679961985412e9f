// Decimal numbers without leading zeros, at most 65,535.
ghost use Rattle.std.specs.Prelude.{◌≡◌, ◌-◌, ◌≤◌};
ghost use Rattle.script_rules.specs.Text.{ZERO, number_of, leads, length_ok};
ghost use Rattle.script_text.specs.Numbers.{narrow, number_read};

use tables::words::get_or;

// What a digit stands for.
pub fn digit_value(b: u8) -> u32
    ensures is { result ≡ b - ZERO }
    ensures small { result ≤ 255 }
{
    b.saturating_sub(b'0') as u32
}

// The number that the digits write, none above 65,535.
pub fn number_of(digits: &[u8]) -> Option<u16>
    ensures { result ≡ narrow (number_of digits.now) }
{
    let mut n: u16 = 0;
    for b in digits {
        n = n.checked_mul(10)?.checked_add(digit_value(*b) as u16)?;
    }
    Some(n)
}

// A leading zero stands alone.
#[tactic(auto, unfolding(script_rules::specs::Text::leads, rules::specs::Choice::some))]
fn leads_well(digits: &[u8]) -> bool
    ensures { result ≡ leads digits.now }
{
    digits.len() == 1 || get_or(digits, 0, 0) != b'0'
}

// 65,535 has five digits.
#[tactic(auto, unfolding(script_rules::specs::Text::length_ok, rules::specs::Choice::every))]
fn length_ok(digits: &[u8]) -> bool
    ensures { result ≡ length_ok digits.now }
{
    matches!(digits.len(), 1..=5)
}

// The number of a text, none where it is not one of a script.
#[tactic(auto, unfolding(crate::specs::Numbers::number_read, crate::specs::Numbers::narrow, script_rules::specs::Text::number_ok, rules::specs::Choice::every))]
pub fn read_number(digits: &[u8]) -> Option<u16>
    ensures { result ≡ number_read digits.now }
{
    if length_ok(digits) && leads_well(digits) {
        number_of(digits)
    } else {
        None
    }
}
