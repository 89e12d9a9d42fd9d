// How many share lists there are, and how many fit.
ghost use Rattle.std.specs.Prelude.{◌≡◌, ◌≤◌, ◌^◌};
ghost use Rattle.shares.specs.Counts.{accepted_lists};

// How many lists of so many shares fit into the slots that are left. A flow's share is one slot at least, and the flows after it go on with the rest: none
// of the slots, one, and so on.
pub(crate) fn fitting(left: usize, flows: usize) -> u64
    requires { (left ≤ 16) × (flows ≤ 8) }
    ensures { result ≡ accepted_lists left flows }
{
    if flows == 0 {
        return 1;
    }
    let mut count = 0;
    for rest in 0..left {
        count += fitting(rest, flows - 1);
    }
    count
}

// How many lists of so many shares there are: each share is one of as many as the frame has slots.
pub(crate) fn all(slots: u64, flows: u32) -> u64
    requires { (slots ≤ 16) × (flows ≤ 8) }
    ensures { result ≡ slots ^ flows }
{
    slots.pow(flows)
}
