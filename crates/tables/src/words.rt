// Total reads and stores: a default is read past the end, and nothing is stored there.
ghost use Rattle.std.specs.Prelude.{◌≡◌, slice_index_or, slice_set, replicate};
ghost use Rattle.std.proofs.lemmas.List.Edits.{sets};

// What stands at i.
pub fn get_or<T: Copy>(xs: &[T], i: usize, default: T) -> T
    ensures { result ≡ slice_index_or xs.now i default }
{
    xs.get(i).copied().unwrap_or(default)
}

// What stands at i becomes v.
pub fn put<T: Copy>(xs: &mut [T], i: usize, v: T)
    ensures { xs.new ≡ slice_set xs.old i v }
{
    if i < xs.len() {
        xs[i] = v;
    }
}

// All of the n from `at` on become v.
pub fn fill<T: Copy>(xs: &mut [T], at: usize, n: usize, v: T)
    ensures { xs.new ≡ sets xs.old at (replicate n v) }
{
    let from = at.min(xs.len());
    let end = from + n.min(xs.len() - from);
    for i in from..end {
        xs[i] = v;
    }
}

// Those from `at` on become those of `ys`.
pub fn copy<T: Copy>(xs: &mut [T], at: usize, ys: &[T])
    ensures { xs.new ≡ sets xs.old at ys.now }
{
    let from = at.min(xs.len());
    let n = ys.len().min(xs.len() - from);
    for i in 0..n {
        xs[from + i] = ys[i];
    }
}
