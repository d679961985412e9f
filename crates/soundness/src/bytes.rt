// Bytes that must be 0.
ghost use Rattle.std.specs.Prelude.{◌≡◌};
ghost use Rattle.rules.specs.Sound.{all_zero};

// No exit before the end: the loop is then made to look at many bytes at once.
pub fn all_zero(bytes: &[u8]) -> bool
    ensures { result ≡ all_zero bytes.now }
{
    bytes.iter().fold(0, |seen, b| seen | *b) == 0
}
