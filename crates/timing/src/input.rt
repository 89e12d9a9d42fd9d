// Standard input, read whole.
ghost use Rattle.std.specs.Prelude.{◌≤◌, length};

use std::io::Read;

// Reads until the space is full, the input ends or a read fails; how many bytes there are at its start.
pub fn read_full(input: &mut impl Read, space: &mut [u8]) -> usize
    ensures { result ≤ length space.new }
{
    let mut done = 0;
    // Stays: a step is as long as what a read brings, so that no range has the places.
    while done < space.len() {
        let got = input.read(&mut space[done..]).unwrap_or(0);
        if got == 0 {
            break;
        }
        done += got;
    }
    done
}
