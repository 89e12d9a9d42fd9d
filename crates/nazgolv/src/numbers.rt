// The number that stands for an answer.
ghost use Rattle.std.specs.Prelude.{◌≡◌};
ghost use Rattle.link.specs.Steps.{request_answer};
ghost use Rattle.imagemodel.specs.Exports.{refusal_number};
ghost use Rattle.nazgolv.specs.Numbers.{number_for, leaves_all};

use calls::Answer;
use link::request::Reply;

// How many numbers a call is answered by where it isn't refused: a refusal is so many times its number.
const ANSWERS: u64 = 1 << 32;

// The number of a refusal.
pub(crate) fn refused(number: u8) -> u64
    ensures { result ≡ refusal_number number }
{
    ANSWERS * u64::from(number)
}

// Whether a number is that of a refusal that leaves the image as it was.
pub(crate) fn leaves_all(number: u64) -> bool
    ensures { result ≡ leaves_all number }
{
    !matches!(number / ANSWERS, 0 | 11 | 12 | 20)
}

// The number of an answer.
pub(crate) fn number_of(answer: Answer) -> u64
    ensures { result ≡ number_for answer }
{
    match answer {
        Answer::Granted(word) => u64::from(word),
        Answer::Booked(flow) | Answer::Lent(flow) => u64::from(flow),
        Answer::Accepted | Answer::Reset => 0,
        Answer::Idle => 16,
        Answer::Refused(number) => refused(number),
    }
}

// The number of what a request of a word comes to.
pub(crate) fn number_of_reply(word: u32, reply: Reply) -> u64
    ensures { result ≡ number_for (request_answer word reply) }
{
    let number = reply.number;
    if number != 0 {
        return refused(number);
    }
    u64::from(word::depart(word, reply.position))
}
