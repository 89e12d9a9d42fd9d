// The word `show`: the numbers of a show, answered by its refusal, and by the plan or the refusal of each link that is used.
#![tactic(auto)]

mod links;

ghost use Rattle.std.specs.Prelude.{◌≤◌, length};
ghost use Rattle.calls.specs.Lines.{Puts};
ghost use Rattle.replies.specs.Lines.{Says};
ghost use Rattle.show.specs.Show as definition;
ghost use Rattle.show.specs.Reading.{show_of};
ghost use Rattle.show.specs.Refusals.{refusal_number};
ghost use Rattle.showwords.specs.Answers.{verdict_line, show_lines, answer_to_show};
ghost use Rattle.showwords.specs.Links.{room};

use show::{Dome, Refusal};

// Stores the first line.
fn put_verdict(verdict: Result<(), Refusal>, out: &mut [u8]) -> usize
    requires { 7 ≤ length out.old }
    ensures put { Puts (verdict_line (refusal_number verdict)) out.old out.new 0 result }
    ensures most { result ≤ 7 }
{
    match verdict {
        Ok(()) => replies::put(b"ok\n", out, 0),
        Err(refusal) => calls::write_refusal(refusal.number(), out, 0),
    }
}

// Says what a show comes to.
fn say_show(dome: Dome, numbers: &[usize], cells: &[usize], out: &mut [u8]) -> usize
    requires { room ≤ length out.old }
    ensures { Says (show_lines (show_of dome numbers.now cells.now)) out.old out.new result }
{
    let verdict = show::check(dome, numbers, cells);
    let first = put_verdict(verdict, out);
    links::put_links(dome, numbers, cells, out, first)
}

// Answers the word `show` and its numbers: F, W and N, the source, the destination and the share of each stream, and then the cells of each on its way and
// on the last link.
pub fn show(numbers: &[usize], out: &mut [u8]) -> usize
    requires { room ≤ length out.old }
    ensures { Says (answer_to_show numbers.now) out.old out.new result }
{
    if numbers.len() < 3 {
        return replies::say(b"? F, W or N is missing\n", out);
    }
    if (numbers.len() - 3) % 5 != 0 {
        return replies::say(
            b"? each stream has a source, a destination and a share, and cells twice: the numbers after N are no multiple of five\n",
            out,
        );
    }
    let cells = 3 + 3 * ((numbers.len() - 3) / 5);
    let dome = Dome {
        slots: numbers[0],
        frames: numbers[1],
        buffer: numbers[2],
    };
    say_show(dome, &numbers[3..cells], &numbers[cells..], out)
}
