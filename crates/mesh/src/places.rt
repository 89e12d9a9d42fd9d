// The links at the places of the table.
ghost use Rattle.std.specs.Prelude.{◌≡◌};
ghost use Rattle.mesh.specs.Mesh.{to};
ghost use Rattle.mesh.specs.Reading.{link_at};

// The node of the board that the link at a place leaves.
pub fn link_from(k: usize) -> usize
    ensures { result ≡ (link_at k).from }
{
    k / 4
}

// The node of the board that the link at a place leads to.
pub fn link_to(k: usize) -> usize
    ensures { result ≡ to (link_at k) }
{
    let node = k / 4;
    match k % 4 {
        0 => node.saturating_sub(8),
        1 => node.saturating_sub(1),
        2 => node + 1,
        _ => node + 8,
    }
}
