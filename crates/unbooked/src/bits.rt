// A word and its bits, counted from the lowest.
ghost use Rattle.std.specs.Prelude.{◌&&◌, not, ◌≤◌, ◌<◌, leb, ltb, eqb};
ghost use Rattle.unbooked.specs.Bits.{bit_at, Bits, Lowest};

// The word whose bits below n are 1, and no others.
pub fn below(n: usize) -> u64
    requires { (1 ≤ n) × (n ≤ 64) }
    ensures { Bits (λ i. ltb i n) result }
{
    u64::MAX >> (64 - n)
}

// A word without its bits below n.
pub fn clear_below(word: u64, n: usize) -> u64
    ensures { Bits (λ i. leb n i && bit_at word i) result }
{
    if 64 <= n {
        return 0;
    }
    (word >> n) << n
}

// A word without bit i.
pub fn without(word: u64, i: usize) -> u64
    requires { i < 64 }
    ensures { Bits (λ k. not (eqb k i) && bit_at word k) result }
{
    word & !(1u64 << i)
}

// The lowest bit that is 1, and 64 where there is none.
pub fn lowest(word: u64) -> usize
    ensures { Lowest word result }
{
    word.trailing_zeros() as usize
}
