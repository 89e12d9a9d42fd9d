// The header: six 16-bit fields, low byte first, read and written.
ghost use Rattle.std.specs.Prelude.{◌≡◌, ◌+◌, ◌≤◌, ◌<◌, length};
ghost use Rattle.std.proofs.lemmas.List.Edits.{sets};
ghost use Rattle.model.specs.Refusals.{condition};
ghost use Rattle.model.specs.Plan.{field16, header_of, count_test};
ghost use Rattle.model.specs.WrittenPlan.{header_bytes};
ghost use Rattle.model.specs.WrittenPlan as written;
ghost use Rattle.plan.specs.Reading.{header_for};
ghost use Rattle.plan.specs.Writing.{HeaderFits};

#[derive(Clone, Copy)]
pub(crate) struct Header {
    pub total: usize,
    pub count: usize,
    pub offset: usize,
    pub slots: usize,
    pub frames: usize,
    pub buffer: usize,
}

// The field at a place.
fn field(bytes: &[u8], at: usize) -> usize
    requires { at + 1 < length bytes.now }
    ensures { result ≡ field16 bytes.now at }
{
    usize::from(u16::from_le_bytes([bytes[at], bytes[at + 1]]))
}

pub(crate) fn read_header(bytes: &[u8]) -> Header
    requires { 12 ≤ length bytes.now }
    ensures { header_for result ≡ header_of bytes.now }
{
    Header {
        total: field(bytes, 0),
        count: field(bytes, 2),
        offset: field(bytes, 4),
        slots: field(bytes, 6),
        frames: field(bytes, 8),
        buffer: field(bytes, 10),
    }
}

// RULES 2.3: test 2, on n, the offset and the length.
#[tactic(auto, using(std::proofs::lemmas::Bool::Decides::nat_tests))]
pub(crate) fn count_out_of_range(h: Header) -> bool
    ensures { result ≡ condition (count_test (header_for h)) }
{
    limits::count_out_of_range(h.count) || h.offset != 12 || h.total != 12 + 4 * h.count
}

// Stores a field at a place.
fn put_field(x: usize, out: &mut [u8], at: usize)
    requires { (x < 65536) × (at + 1 < length out.old) }
    ensures { out.new ≡ sets out.old at (written.field x) }
{
    out[at] = (x % 256) as u8;
    out[at + 1] = (x / 256) as u8;
}

pub(crate) fn put_header(h: Header, out: &mut [u8])
    requires { HeaderFits h × (12 ≤ length out.old) }
    ensures { out.new ≡ sets out.old 0 (header_bytes (header_for h)) }
{
    put_field(h.total, out, 0);
    put_field(h.count, out, 2);
    put_field(h.offset, out, 4);
    put_field(h.slots, out, 6);
    put_field(h.frames, out, 8);
    put_field(h.buffer, out, 10);
}
