// The lines of links: two boards, and the plan's bytes or the refusal.
ghost use Rattle.std.specs.Prelude.{◌+◌, ◌≤◌, ◌++◌, length, replicate};
ghost use Rattle.model.specs.Listing.{refusal_line};
ghost use Rattle.model.specs.WrittenPlan.{written};
ghost use Rattle.calls.specs.Lines.{Puts};
ghost use Rattle.mesh.specs.Reading.{link_at};
ghost use Rattle.show.specs.Show.{link_plan};
ghost use Rattle.show.specs.Reading.{show_of};
ghost use Rattle.showwords.specs.Answers.{nodes_text, link_line, link_lines};
ghost use Rattle.showwords.specs.Links.{bytes_line, written_line};

use show::Dome;

// The longest plan: a header of 12 bytes and 16 entries of four.
const LONGEST: usize = 76;

// The places for links: four for each board, one for each side.
const PLACES: usize = 256;

// Stores how the line of the link at a place begins.
fn put_nodes(k: usize, out: &mut [u8], at: usize) -> usize
    requires { at + 47 ≤ length out.old }
    ensures put { Puts (nodes_text (link_at k)) out.old out.new at result }
    ensures most { result ≤ at + 47 }
{
    let word = replies::put(b"link", out, at);
    let from = replies::put_number(mesh::link_from(k), out, word);
    let to = replies::put_number(mesh::link_to(k), out, from);
    replies::put(b" ", out, to)
}

// Stores the line of a link with a refusal.
fn put_refused(k: usize, number: u8, out: &mut [u8], at: usize) -> usize
    requires { at + 54 ≤ length out.old }
    ensures put { Puts (nodes_text (link_at k) ++ refusal_line number) out.old out.new at result }
    ensures most { result ≤ at + 54 }
{
    let nodes = put_nodes(k, out, at);
    calls::write_refusal(number, out, nodes)
}

// Stores the line of a link with a plan's bytes.
fn put_bytes(k: usize, bytes: &[u8], out: &mut [u8], at: usize) -> usize
    requires { (length bytes.now ≤ 76) × (at + 200 ≤ length out.old) }
    ensures put { Puts (bytes_line (link_at k) bytes.now) out.old out.new at result }
    ensures most { result ≤ at + 200 }
{
    let nodes = put_nodes(k, out, at);
    let digits = replies::put_hex(bytes, out, nodes);
    replies::put(b"\n", out, digits)
}

// Stores the line of a link with its plan, and nothing where it has none.
fn put_plan(
    dome: Dome,
    numbers: &[usize],
    cells: &[usize],
    k: usize,
    out: &mut [u8],
    at: usize,
) -> usize
    requires { at + 200 ≤ length out.old }
    ensures put { Puts (written_line (written (link_plan (show_of dome numbers.now cells.now) (link_at k)) (replicate 76 0)).answer (link_at k) (link_plan (show_of dome numbers.now cells.now) (link_at k))) out.old out.new at result }
    ensures most { result ≤ at + 200 }
{
    let mut buffer = [0u8; LONGEST];
    match show::write(dome, numbers, cells, k, &mut buffer) {
        Ok(count) => put_bytes(k, &buffer[..count], out, at),
        Err(_) => at,
    }
}

// Stores the line of the link at a place, and nothing where no stream uses it.
fn put_link(
    dome: Dome,
    numbers: &[usize],
    cells: &[usize],
    k: usize,
    out: &mut [u8],
    at: usize,
) -> usize
    requires { at + 200 ≤ length out.old }
    ensures put { Puts (link_line (show_of dome numbers.now cells.now) (link_at k)) out.old out.new at result }
    ensures most { result ≤ at + 200 }
{
    match show::check_link(dome, numbers, cells, k) {
        Ok(()) => put_plan(dome, numbers, cells, k, out, at),
        Err(refusal) => put_refused(k, refusal.number(), out, at),
    }
}

// Stores the lines of all links.
pub(crate) fn put_links(
    dome: Dome,
    numbers: &[usize],
    cells: &[usize],
    out: &mut [u8],
    at: usize,
) -> usize
    requires { at + 51200 ≤ length out.old }
    ensures put { Puts (link_lines (show_of dome numbers.now cells.now) 256) out.old out.new at result }
    ensures most { result ≤ at + 51200 }
{
    let mut next = at;
    for k in 0..PLACES {
        next = put_link(dome, numbers, cells, k, out, next);
    }
    next
}
