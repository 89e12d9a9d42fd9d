// The table of loads: four places for each board, one for each side, in the order of the nodes of the boards there.
ghost use Rattle.std.specs.Prelude.{◌+◌, ◌≡◌, get_or, ltb};
ghost use Rattle.model.specs.Tables.{any, table};
ghost use Rattle.mesh.specs.Streams.{stream_with, share_on};
ghost use Rattle.mesh.specs.Reading.{link_at};
ghost use Rattle.mesh.specs.Loads.{Addable, Joining, SmallStreams, Spot, Place, in_line, raised, gathered_loads};

// The place of a board's side. The board is given by a line, a row for west and east and else a column, and by how far along the line it is.
fn place(side: usize, line: usize, step: usize) -> usize
    requires { Spot side line step }
    ensures { Place side line step result }
{
    if side == 1 || side == 2 {
        return 4 * (8 * line + step) + side;
    }
    4 * (8 * step + line) + side
}

// Adds a share to the links on one side of a line's boards, from one of them up to before another.
fn add_in_line(
    loads: &mut [usize; 256],
    side: usize,
    line: usize,
    low: usize,
    high: usize,
    share: usize,
)
    requires { Addable loads.old side line high share }
    ensures { loads.new ≡ raised (in_line side line low high) share loads.old }
{
    for step in low..high {
        loads[place(side, line, step)] += share;
    }
}

// Adds a stream's share to the links that it uses: those to the north, west, east and south, of which at most two have any.
fn add_stream(loads: &mut [usize; 256], source: usize, destination: usize, share: usize)
    requires { Joining loads.old source destination share }
    ensures { loads.new ≡ table 256 (λ k. get_or loads.old k 0 + share_on (link_at k) (stream_with source destination share)) }
{
    let column = source % 8;
    let row = source / 8;
    let last_column = destination % 8;
    let last_row = destination / 8;
    add_in_line(loads, 0, last_column, last_row + 1, row + 1, share);
    add_in_line(loads, 1, row, last_column + 1, column + 1, share);
    add_in_line(loads, 2, row, column, last_column, share);
    add_in_line(loads, 3, last_column, row, last_row, share);
}

// What the first streams put on the links.
pub(crate) fn gathered(numbers: &[usize], count: usize) -> [usize; 256]
    requires { SmallStreams numbers.now count }
    ensures { result ≡ gathered_loads numbers.now count }
{
    let mut loads = [0; 256];
    for i in 0..count {
        add_stream(
            &mut loads,
            numbers[3 * i],
            numbers[3 * i + 1],
            numbers[3 * i + 2],
        );
    }
    loads
}

// Whether some load of a table is above F.
pub fn any_over(loads: &[usize; 256], slots: usize) -> bool
    ensures { result ≡ any 256 (λ k. ltb slots (get_or loads.now k 0)) }
{
    for load in loads {
        if slots < *load {
            return true;
        }
    }
    false
}
