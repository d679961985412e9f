// Numbers in decimal, of 32 bits.
ghost use Rattle.std.specs.Prelude.{◌≡◌};
ghost use Rattle.script_rules.specs.Text.{number_of};
ghost use Rattle.console.specs.Numbers.{is_decimal, narrow, number_in, number_at};

use crate::words::word;
use script_text::lines::is_digit;
use script_text::numbers::digit_value;

// Digits, one at least.
#[tactic(auto, unfolding(crate::specs::Numbers::is_decimal, rules::specs::Choice::every))]
fn is_decimal(text: &[u8]) -> bool
    ensures { result ≡ is_decimal text.now }
{
    !text.is_empty() && text.iter().all(|b| is_digit(*b))
}

// The number that digits write, none of more than 32 bits.
fn value(text: &[u8]) -> Option<u32>
    ensures { result ≡ narrow (number_of text.now) }
{
    let mut n: u32 = 0;
    for b in text {
        n = n.checked_mul(10)?.checked_add(digit_value(*b))?;
    }
    Some(n)
}

// The number that a word writes in decimal.
#[tactic(auto, unfolding(crate::specs::Numbers::number_in))]
pub(crate) fn number(text: &[u8]) -> Option<u32>
    ensures { result ≡ number_in text.now }
{
    if is_decimal(text) { value(text) } else { None }
}

// Word k as a number.
pub(crate) fn number_at(line: &[u8], k: usize) -> Option<u32>
    ensures { result ≡ number_at line.now k }
{
    number(word(line, k))
}
