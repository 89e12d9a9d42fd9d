// The owners of positions: fields from a place on, in straight passes.
ghost use Rattle.std.specs.Prelude.{◌≡◌, ◌+◌, ◌*◌, ◌≤◌, ◌<◌, length};
ghost use Rattle.model.specs.Tables as model;
ghost use Rattle.imagemodel.specs.Image.{field_at, owner_in};
ghost use Rattle.imagemodel.specs.Consistent as images;
ghost use Rattle.imagecheck.specs.Flows.{booking_at, bookings_at};

use crate::straight::short;
use fields::field;

// 1 where an owner is one of n flows, or none, else 0.
fn is_known(x: u16, count: u16) -> u16
    ensures { (result ≡ model.bit (images.known count (owner_in x))) × (result ≤ 1) }
{
    u16::from(x == 16 || x < count)
}

// Whether every owner is one of n flows, or none.
pub(crate) fn known(image: &[u8], at: usize, size: usize, count: usize) -> bool
    requires { (at + 2 * size ≤ length image.now) × (size ≤ 256) × (count ≤ 16) }
    ensures { result ≡ model.every size (λ p. images.known count (owner_in (field_at image.now at p))) }
{
    let flows = count as u16;
    let mut n: u16 = 0;
    for p in 0..size {
        n += is_known(short(image, at + 2 * p), flows);
    }
    usize::from(n) == size
}

// 1 where flow i booked the position at a place, else 0.
pub(crate) fn booking(image: &[u8], at: usize, i: usize) -> usize
    requires { (at + 1 < length image.now) × (i < 16) }
    ensures is { result ≡ booking_at image.now i at }
    ensures most { result ≤ 1 }
{
    usize::from(field(image, at) == i)
}

// How many of so many positions from a place on flow i booked.
pub(crate) fn bookings(image: &[u8], at: usize, slots: usize, i: usize) -> usize
    requires { (at + 2 * slots ≤ length image.now) × (slots ≤ 64) × (i < 16) }
    ensures is { result ≡ bookings_at image.now i at slots }
    ensures most { result ≤ slots }
{
    let flow = i as u16;
    let mut n: u16 = 0;
    for x in 0..slots {
        n += u16::from(short(image, at + 2 * x) == flow);
    }
    usize::from(n)
}
