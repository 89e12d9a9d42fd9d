// One of two bytes.
ghost use Rattle.std.specs.Prelude.{◌≡◌, if◌then◌else◌, nat_lt};

// `below` where x is below a bound, else `other`.
pub fn select_below(x: u8, bound: u8, below: u8, other: u8) -> u8
    ensures { result ≡ (if nat_lt x bound then below else other) }
{
    if x < bound {
        return below;
    }
    other
}
