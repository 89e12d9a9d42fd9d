// The links that are over, with their loads.
ghost use Rattle.std.specs.Prelude.{◌+◌, ◌≤◌, ◌<◌, ◌≡◌, true, cond, length, get_or, ltb};
ghost use mathlib.Core.List.{◌++◌, [], flat_map};
ghost use Rattle.model.specs.Tables.{any};
ghost use Rattle.calls.specs.Lines.{Puts};
ghost use Rattle.mesh.specs.Reading.{streams_of};
ghost use Rattle.replies.specs.Lines.{spaced, room, Says};
ghost use Rattle.meshwords.specs.Answers as answers;
ghost use Rattle.meshwords.specs.Overloads.{place_numbers, overload_numbers, table_line};

// Stores the two nodes and the load of the link at a place.
fn put_link(k: usize, load: usize, out: &mut [u8], at: usize) -> usize
    requires { at + 63 ≤ length out.old }
    ensures put { Puts (flat_map spaced (place_numbers k load)) out.old out.new at result }
    ensures most { result ≤ at + 63 }
{
    let after_from = replies::put_number(mesh::link_from(k), out, at);
    let after_to = replies::put_number(mesh::link_to(k), out, after_from);
    replies::put_number(load, out, after_to)
}

// The same if its load is above F, and else nothing.
fn put_if_over(slots: usize, k: usize, load: usize, out: &mut [u8], at: usize) -> usize
    requires { at + 63 ≤ length out.old }
    ensures put { Puts (flat_map spaced (cond (ltb slots load) (place_numbers k load) [])) out.old out.new at result }
    ensures most { result ≤ at + 63 }
{
    if slots < load {
        put_link(k, load, out, at)
    } else {
        at
    }
}

// Stores all links whose loads are above F.
fn put_over(slots: usize, loads: &[usize; 256], out: &mut [u8], at: usize) -> usize
    requires { at + 16128 ≤ length out.old }
    ensures put { Puts (flat_map spaced (overload_numbers slots loads.now 256)) out.old out.new at result }
    ensures most { result ≤ at + 16128 }
{
    let mut next = at;
    for (k, load) in loads.iter().enumerate() {
        next = put_if_over(slots, k, *load, out, next);
    }
    next
}

// Says which links of a table have loads above F.
fn say_table(slots: usize, loads: &[usize; 256], out: &mut [u8]) -> usize
    requires { room ≤ length out.old }
    ensures { Says (table_line slots loads.now) out.old out.new result }
{
    if !mesh::any_over(loads, slots) {
        return replies::say(b"ok\n", out);
    }
    let word = replies::put(b"over", out, 0);
    let end = put_over(slots, loads, out, word);
    replies::put(b"\n", out, end)
}

// Says which links are over.
pub(crate) fn say_over(slots: usize, numbers: &[usize], out: &mut [u8]) -> usize
    requires { room ≤ length out.old }
    ensures { Says (answers.mesh_line true slots (streams_of numbers.now)) out.old out.new result }
{
    match mesh::measure(slots, numbers) {
        Ok(table) => say_table(slots, &table, out),
        Err(refusal) => replies::say_refusal(refusal.number(), out),
    }
}
