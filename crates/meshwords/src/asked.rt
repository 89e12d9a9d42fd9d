// The words `mesh` and `mesh-over`: F and streams, answered by whether they are admitted, or by the links that are over.
ghost use Rattle.std.specs.Prelude.{◌≤◌, true, false, length};
ghost use Rattle.mesh.specs.Reading.{streams_of};
ghost use Rattle.replies.specs.Lines.{room, Says};
ghost use Rattle.meshwords.specs.Answers as answers;

use crate::overloads;

// Says whether streams are admitted.
fn say_admission(slots: usize, numbers: &[usize], out: &mut [u8]) -> usize
    requires { room ≤ length out.old }
    ensures { Says (answers.mesh_line false slots (streams_of numbers.now)) out.old out.new result }
{
    match mesh::admit(slots, numbers) {
        Ok(()) => replies::say(b"ok\n", out),
        Err(refusal) => replies::say_refusal(refusal.number(), out),
    }
}

// Answers F and streams, by the word.
fn asked(over: bool, numbers: &[usize], out: &mut [u8]) -> usize
    requires { room ≤ length out.old }
    ensures { Says (answers.mesh_answer over numbers.now) out.old out.new result }
{
    if numbers.len() == 0 {
        return replies::say(b"? F is missing\n", out);
    }
    if (numbers.len() - 1) % 3 != 0 {
        return replies::say(
            b"? each stream has a source, a destination and a share: the numbers after F are no multiple of three\n",
            out,
        );
    }
    if over {
        return overloads::say_over(numbers[0], &numbers[1..], out);
    }
    say_admission(numbers[0], &numbers[1..], out)
}

// Answers the word `mesh` and its numbers.
pub fn mesh(numbers: &[usize], out: &mut [u8]) -> usize
    requires { room ≤ length out.old }
    ensures { Says (answers.answer_to_mesh numbers.now) out.old out.new result }
{
    asked(false, numbers, out)
}

// Answers the word `mesh-over` and its numbers.
pub fn mesh_over(numbers: &[usize], out: &mut [u8]) -> usize
    requires { room ≤ length out.old }
    ensures { Says (answers.answer_to_over numbers.now) out.old out.new result }
{
    asked(true, numbers, out)
}
