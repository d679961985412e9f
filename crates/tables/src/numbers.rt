// Counters of 32 bits, which wrap, and lengths in memory as words.
ghost use Rattle.std.specs.Prelude.{◌≡◌, ◌%◌, ◌^◌, min};
ghost use Rattle.rules.specs.Store.{up, plus};

#[tactic(auto, unfolding(rules::specs::Store::up))]
pub fn up_one(n: u32) -> u32
    ensures { result ≡ up n }
{
    n.wrapping_add(1)
}

#[tactic(auto, unfolding(rules::specs::Store::plus))]
pub fn add(a: u32, b: u32) -> u32
    ensures { result ≡ plus a b }
{
    a.wrapping_add(b)
}

// The smaller of a length in memory and a number.
pub fn smaller(n: usize, m: u32) -> u32
    ensures { result ≡ min n m }
{
    n.min(m as usize) as u32
}

// A length in memory, as a word.
pub fn word_of(n: usize) -> u32
    ensures { result ≡ n % 2 ^ 32 }
{
    (n % (1 << 32)) as u32
}

// A word and a length in memory.
#[tactic(auto, unfolding(rules::specs::Store::plus))]
pub fn add_length(a: u32, n: usize) -> u32
    ensures { result ≡ plus a n }
{
    add(a, word_of(n))
}
