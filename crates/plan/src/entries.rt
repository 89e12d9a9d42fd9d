// The entries of the flow part, which is handed over as a part of its own, read and written.
ghost use Rattle.std.specs.Prelude.{◌≡◌, ◌+◌, ◌*◌, ◌≤◌, ◌<◌, length};
ghost use Rattle.std.proofs.lemmas.List.Edits.{sets};
ghost use Rattle.model.specs.Plan.{entry_of, entries_of};
ghost use Rattle.model.specs.WrittenPlan.{entry_bytes, ByteEntry};
ghost use Rattle.limits.specs.Reading.{wanted_for};
ghost use Rattle.plan.specs.Reading.{entry_for, stored_entries};
ghost use Rattle.plan.specs.Writing.{ByteEntries, flow_part, begun};

use crate::Entry;
use limits::Wanted;

// What stands where there is no flow.
const NO_ENTRY: Entry = Entry {
    share: 0,
    cells: 0,
    source: 0,
    destination: 0,
};

// The entry of flow i.
fn entry(part: &[u8], i: usize) -> Entry
    requires { (i < 16) × (4 * i + 4 ≤ length part.now) }
    ensures { entry_for result ≡ entry_of part.now i }
{
    let at = 4 * i;
    Entry {
        share: part[at],
        cells: part[at + 1],
        source: part[at + 2],
        destination: part[at + 3],
    }
}

// The first `count` entries of the flow part, and all zero after them.
pub(crate) fn read_entries(part: &[u8], count: usize) -> [Entry; 16]
    requires { (count ≤ 16) × (4 * count ≤ length part.now) }
    ensures { result ≡ stored_entries (entries_of count part.now) }
{
    let mut all = [NO_ENTRY; 16];
    for i in 0..count {
        all[i] = entry(part, i);
    }
    all
}

// Stores an entry at a place.
fn put_entry(e: Wanted, out: &mut [u8], at: usize)
    requires { ByteEntry (wanted_for e) × (at + 3 < length out.old) }
    ensures { out.new ≡ sets out.old at (entry_bytes (wanted_for e)) }
{
    out[at] = e.share as u8;
    out[at + 1] = e.cells as u8;
    out[at + 2] = e.source as u8;
    out[at + 3] = e.destination as u8;
}

// Stores the first `count` entries at the part's start.
pub(crate) fn put_entries(entries: [Wanted; 16], count: usize, part: &mut [u8])
    requires { ByteEntries entries count × (4 * count ≤ length part.old) }
    ensures { part.new ≡ begun (flow_part entries count) part.old }
{
    for i in 0..count {
        put_entry(entries[i], part, 4 * i);
    }
}
