// Sets by their masks.
ghost use Rattle.std.specs.Prelude.{◌≡◌, cond, ◌≤◌, ◌<◌, ◌^◌};
ghost use Rattle.model.specs.Calls.{in_mask};
ghost use Rattle.extras.specs.Search.{Amounts, sum_in};

use crate::MOST;

// The number of sets of n layers.
pub(crate) fn set_count(n: usize) -> usize
    requires { n ≤ 12 }
    ensures is { result ≡ 2 ^ n }
    ensures most { result ≤ 4096 }
{
    1usize << n
}

// What layer i adds to the sum over a set: nothing where it isn't in it.
fn added(mask: usize, i: usize, amount: usize) -> usize
    requires { i < 64 }
    ensures is { result ≡ cond (in_mask mask i) amount 0 }
    ensures most { result ≤ amount }
{
    if (mask >> i) % 2 == 1 { amount } else { 0 }
}

// The sum of some amounts, one for each layer, over a set.
pub(crate) fn sum_over(amounts: &[usize; MOST], count: usize, mask: usize) -> usize
    requires { Amounts amounts.now count }
    ensures { result ≡ sum_in amounts.now count mask }
{
    let mut sum = 0;
    for (i, amount) in amounts[..count].iter().enumerate() {
        sum += added(mask, i, *amount);
    }
    sum
}
