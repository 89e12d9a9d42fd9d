// Which links lie on a stream's way, by where they lie.
ghost use Rattle.std.specs.Prelude.{◌≡◌, ◌&&◌, leb, ltb, eqb};
ghost use Rattle.mesh.specs.Streams.{on_way};
ghost use Rattle.mesh.specs.Reading.{link_at};

// Whether a link is in a line, and from one step of it on and before another, for links that lead to higher nodes.
fn ahead(line: usize, of: usize, first: usize, step: usize, last: usize) -> bool
    ensures { result ≡ eqb line of && (leb first step && ltb step last) }
{
    line == of && first <= step && step < last
}

// The same for links that lead to lower nodes.
fn back(line: usize, of: usize, last: usize, step: usize, first: usize) -> bool
    ensures { result ≡ eqb line of && (ltb last step && leb step first) }
{
    line == of && last < step && step <= first
}

// Whether the link at a place is on the way from a source to a destination.
pub(crate) fn on_way(source: usize, destination: usize, k: usize) -> bool
    ensures { result ≡ on_way source destination (link_at k).side (link_at k).from }
{
    let node = k / 4;
    match k % 4 {
        0 => back(
            node % 8,
            destination % 8,
            destination / 8,
            node / 8,
            source / 8,
        ),
        1 => back(node / 8, source / 8, destination % 8, node % 8, source % 8),
        2 => ahead(node / 8, source / 8, source % 8, node % 8, destination % 8),
        _ => ahead(
            node % 8,
            destination % 8,
            source / 8,
            node / 8,
            destination / 8,
        ),
    }
}
