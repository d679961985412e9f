// Parts of a slice of bytes, handed on and not copied.
ghost use Rattle.std.specs.Prelude.{◌≡◌, take, drop};

// What is past the first n bytes.
pub fn after(xs: &[u8], n: usize) -> &[u8]
    ensures { result.now ≡ drop n xs.now }
{
    if n < xs.len() {
        return &xs[n..];
    }
    &xs[0..0]
}

// The first n bytes, all where there are fewer.
pub fn upto(xs: &[u8], n: usize) -> &[u8]
    ensures { result.now ≡ take n xs.now }
{
    if n < xs.len() {
        return &xs[0..n];
    }
    &xs[0..]
}
