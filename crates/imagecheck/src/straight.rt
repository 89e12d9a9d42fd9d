// Straight passes over fields as wide as they are: how many of them pass a test, with no way out before the end.
// Stays: a chain with `all` leaves at the first that fails, and `count` counts in numbers of 64 bits, four times as wide as the fields.
ghost use Rattle.std.specs.Prelude.{◌≡◌, ◌+◌, ◌-◌, ◌*◌, ◌≤◌, ◌<◌, length, leb, eqb};
ghost use Rattle.model.specs.Tables.{every, bit};
ghost use Rattle.model.specs.Plan.{field16};
ghost use Rattle.imagemodel.specs.Image.{field_at};
ghost use Rattle.imagecheck.specs.Flows.{grows_on};
ghost use Rattle.imagecheck.specs.Asked.{RunOn};

// The field at a place.
pub(crate) fn short(image: &[u8], at: usize) -> u16
    requires { at + 1 < length image.now }
    ensures { result ≡ field16 image.now at }
{
    u16::from_le_bytes([image[at], image[at + 1]])
}

// 1 where a flow i that held `last` before a position of this owner may hold x there, else 0.
fn grown(x: u16, last: u16, owner: u16, i: u16) -> u16
    ensures { (result ≡ bit (leb x (last + bit (eqb owner i)))) × (result ≤ 1) }
{
    u16::from(x.saturating_sub(u16::from(owner == i)) <= last)
}

// Whether none of so many fields from a place on is above a number.
pub(crate) fn at_most(image: &[u8], at: usize, count: usize, most: u16) -> bool
    requires { (at + 2 * count ≤ length image.now) × (count ≤ 256) }
    ensures { result ≡ every count (λ p. leb (field_at image.now at p) most) }
{
    let mut n: u16 = 0;
    for p in 0..count {
        n += u16::from(short(image, at + 2 * p) <= most);
    }
    usize::from(n) == count
}

// Whether so many positions, whose owners and whose holdings of flow i stand from these places on, each have no more than the one before
// them, or one more if the flow booked them.
pub(crate) fn growing(image: &[u8], owners: usize, held: usize, count: usize, i: u16) -> bool
    requires { RunOn image.now owners held count i }
    ensures { result ≡ every count (grows_on image.now owners held i) }
{
    let mut n: u16 = 0;
    for k in 0..count {
        let at = held + 2 * k;
        n += grown(
            short(image, at),
            short(image, at - 2),
            short(image, owners + 2 * k),
            i,
        );
    }
    usize::from(n) == count
}
