// A request, and the words of a burst.
ghost use Rattle.std.specs.Prelude.{◌+◌, ◌≤◌, ◌<◌, length, ◌≡◌, cond, eqb};
ghost use Rattle.window.specs.Window.{Proper};
ghost use Rattle.link.specs.Given.{StateIn};
ghost use Rattle.link.specs.Steps.{read_in};
ghost use Rattle.trace.specs.Trace.{ask_line, reply_letter, traced_request, traced_word, traced_past, word_numbers};
ghost use Rattle.trace.specs.Written.{Lines, Told, kind_number};

use crate::told::{Kind, Line, Numbers, answer_of, put_answer};
use burst::reply_to;
use link::request::Reply;
use plan::Plan;
use state::State;
use window::Window;

// The numbers of a word.
fn word_of(kind: Kind, word: u32) -> Numbers
    ensures { result ≡ word_numbers (kind_number kind) word }
{
    let fields = word::split(word);
    [
        kind.number(),
        usize::from(fields.flow),
        usize::from(fields.quantum),
        usize::from(fields.departure),
        usize::from(fields.destination),
    ]
}

// The position that a request's line is about.
fn place_of(w: Window, reply: Reply) -> usize
    requires { Proper w }
    ensures few { result < 256 }
    ensures is { result ≡ cond (eqb reply.number 0) reply.position w.current }
{
    if reply.number != 0 {
        return w.current;
    }
    usize::from(reply.position)
}

// A word that was asked for: the letter and the kind of its line, and what its request came to.
#[derive(Clone, Copy)]
struct Asked {
    letter: u8,
    kind: Kind,
    word: u32,
    reply: Reply,
}

// Writes the line of a word.
fn put_ask(s: &State, plan: Plan, w: Window, asked: Asked, out: &mut [u8], at: usize) -> usize
    requires { StateIn plan w s.now × (at + 384 ≤ length out.old) }
    ensures { Lines (ask_line asked.letter (kind_number asked.kind) asked.word (read_in plan s.now) asked.reply)
        out.old out.new at result 384 }
{
    let reply = asked.reply;
    let call = word_of(asked.kind, asked.word);
    let position = place_of(w, reply);
    let said = answer_of(
        asked.letter,
        usize::from(reply.number),
        usize::from(reply.position),
    );
    let line = Line {
        said,
        call,
        flow: call[1],
        position,
    };
    put_answer(s, plan, w, line, out, at)
}

// The letter of a request's answer.
fn letter_of(reply: Reply) -> u8
    ensures { result ≡ reply_letter reply.number }
{
    if reply.number != 0 { b'R' } else { b'G' }
}

// A request.
pub(crate) fn ask(
    s: &mut State,
    plan: Plan,
    w: Window,
    word: u32,
    out: &mut [u8],
    at: usize,
) -> usize
    requires { StateIn plan w s.old × (at + 2048 ≤ length out.old) }
    ensures { Told (traced_request (read_in plan s.old) word) plan w s.new
        out.old out.new at result }
{
    let reply = reply_to(s, plan, w, word);
    let asked = Asked {
        letter: letter_of(reply),
        kind: Kind::Request,
        word,
        reply,
    };
    put_ask(s, plan, w, asked, out, at)
}

// One of the first words of a burst.
pub(crate) fn ask_in_burst(
    s: &mut State,
    plan: Plan,
    w: Window,
    word: u32,
    out: &mut [u8],
    at: usize,
) -> usize
    requires { StateIn plan w s.old × (at + 2048 ≤ length out.old) }
    ensures { Told (traced_word (read_in plan s.old) word) plan w s.new
        out.old out.new at result }
{
    let reply = reply_to(s, plan, w, word);
    let asked = Asked {
        letter: b'B',
        kind: Kind::Burst,
        word,
        reply,
    };
    put_ask(s, plan, w, asked, out, at)
}

// A word of a burst that is not looked at.
pub(crate) fn ask_past_burst(
    s: &State,
    plan: Plan,
    w: Window,
    word: u32,
    out: &mut [u8],
    at: usize,
) -> usize
    requires { StateIn plan w s.now × (at + 2048 ≤ length out.old) }
    ensures { Told (traced_past (read_in plan s.now) word) plan w s.now
        out.old out.new at result }
{
    let reply = Reply {
        number: 255,
        position: 255,
    };
    let asked = Asked {
        letter: b'B',
        kind: Kind::Burst,
        word,
        reply,
    };
    put_ask(s, plan, w, asked, out, at)
}
