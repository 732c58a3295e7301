// Runs each case of data/ and compares: the arguments are the names of the inputs, each before what must come out.
#![tactic(auto)]

ghost use Rattle.std.specs.Prelude.{true};

use cases::Cases;
use numbers::limits;
use shift_turns::Shift;

// The end of a script, after `kept` bytes of a last line: its answer is put behind what was said before.
fn finish(
    shift: Shift,
    kept: usize,
    line: &[u8; shift_hearing::LINE],
    room: &mut [u8; limits::DECK_BYTES],
    answer: &mut [u8; schedule_deck::ROOM],
    said: &mut [u8; 65536],
    len: usize,
) -> usize {
    let n = shift_hearing::finish(shift, kept, line, room, answer);
    text::put_bytes(said, len, input_lines::front(answer, n))
}

// Plays a script, its lines taken up in the room for one: all that is answered, and how long that is.
fn play(
    script: &[u8],
    line: &mut [u8; shift_hearing::LINE],
    out: &mut [u8; shift_hearing::OUT],
    said: &mut [u8; 65536],
) -> usize {
    let mut room = [0u8; limits::DECK_BYTES];
    let mut answer = [0u8; schedule_deck::ROOM];
    let mut shift = shift_turns::fresh();
    let mut kept: usize = 0;
    let mut at: usize = 0;
    let mut len: usize = 0;
    while at < script.len() {
        let heard = shift_hearing::hear(
            shift,
            kept,
            &script[at..],
            line,
            &mut room,
            &mut answer,
            out,
        );
        shift = heard.shift;
        kept = heard.len;
        at += heard.taken;
        len = text::put_bytes(said, len, input_lines::front(out, heard.at));
    }
    finish(shift, kept, line, &mut room, &mut answer, said, len)
}

// Whether all that is answered to a script is this text.
fn says(script: &[u8], wanted: &[u8]) -> bool {
    let mut line = [0u8; shift_hearing::LINE];
    let mut out = [0u8; shift_hearing::OUT];
    let mut said = [0u8; 65536];
    let length = play(script, &mut line, &mut out, &mut said);
    input_lines::front(&said, length) == wanted
}

// Scripts and what is answered to them.
struct Scripts;

impl Cases for Scripts {
    ghost right = { λ _ _. true };

    fn agrees(&self, given: &[u8], due: &[u8]) -> bool {
        says(given, due)
    }
}

// Prints how many cases agree.
fn main(rt: HostRuntime) {
    cases::run(&rt, &mut [0u8; 65536], &mut [0u8; 65536], &Scripts);
}
