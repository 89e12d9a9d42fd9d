// The words that ask. A word is a row of `named`, and an arm of `answer_numbers` if numbers follow it.
ghost use Rattle.std.specs.Prelude.{◌≤◌, ◌≡◌, length};
ghost use Rattle.replies.specs.Lines as said;
ghost use Rattle.questions.specs.Answers.{word_for, answer_to_numbers};

// Words that are followed by numbers.
#[derive(Clone, Copy, Debug, PartialEq, Eq)]
pub(crate) enum NumberWord {
    Plan,
    Room,
    Mesh,
    MeshOver,
    Count,
    Extras,
    Programme,
    Delay,
    Faults,
    WeekFaults,
}

// Stays: a text that is no word is answered too, so `Unknown` has an arm beside the others'; an Option of a word would be taken apart in the same
// three arms.
#[derive(Clone, Copy, Debug, PartialEq, Eq)]
pub(crate) enum Word {
    OfNumbers(NumberWord),
    Read,
    Unknown,
}

// The word that a text is.
pub(crate) fn named(text: &[u8]) -> Word
    ensures { result ≡ word_for text.now }
{
    if check::same(text, b"plan") {
        return Word::OfNumbers(NumberWord::Plan);
    }
    if check::same(text, b"room") {
        return Word::OfNumbers(NumberWord::Room);
    }
    if check::same(text, b"read") {
        return Word::Read;
    }
    if check::same(text, b"mesh") {
        return Word::OfNumbers(NumberWord::Mesh);
    }
    if check::same(text, b"mesh-over") {
        return Word::OfNumbers(NumberWord::MeshOver);
    }
    if check::same(text, b"count") {
        return Word::OfNumbers(NumberWord::Count);
    }
    if check::same(text, b"extras") {
        return Word::OfNumbers(NumberWord::Extras);
    }
    if check::same(text, b"programme") {
        return Word::OfNumbers(NumberWord::Programme);
    }
    if check::same(text, b"delay") {
        return Word::OfNumbers(NumberWord::Delay);
    }
    if check::same(text, b"faults") {
        return Word::OfNumbers(NumberWord::Faults);
    }
    if check::same(text, b"week-faults") {
        return Word::OfNumbers(NumberWord::WeekFaults);
    }
    Word::Unknown
}

// Answers a word and its numbers.
#[tactic(auto, unfolding(crate::specs::Answers::answer_to_numbers))]
pub(crate) fn answer_numbers(word: NumberWord, numbers: &[usize], out: &mut [u8]) -> usize
    requires { said.room ≤ length out.old }
    ensures { said.Says (answer_to_numbers word numbers.now) out.old out.new result }
{
    match word {
        NumberWord::Plan => planwords::plan(numbers, out),
        NumberWord::Room => planwords::room(numbers, out),
        NumberWord::Mesh => meshwords::mesh(numbers, out),
        NumberWord::MeshOver => meshwords::mesh_over(numbers, out),
        NumberWord::Count => sharewords::count(numbers, out),
        NumberWord::Extras => extrawords::extras(numbers, out),
        NumberWord::Programme => programmewords::programme(numbers, out),
        NumberWord::Delay => delaywords::delay(numbers, out),
        NumberWord::Faults => faultwords::faults(numbers, out),
        NumberWord::WeekFaults => weekwords::week_faults(numbers, out),
    }
}
