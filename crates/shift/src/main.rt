// The whole cell as a program to talk to: reads a script on standard input and answers each line as soon as it has
// come.
#![tactic(auto)]

use numbers::limits;
use shift_turns::{Phase, Shift};

// The shift after a piece, how many bytes of the next line stand in the room for it, and whether its answers could be
// written.
#[derive(Clone, Copy)]
struct Talked {
    shift: Shift,
    len: usize,
    well: bool,
}

// Writes the first n bytes, and answers whether that went well; where it did not, says so on standard error.
fn written(rt: &(impl Print + Eprint), out: &[u8], n: usize) -> bool {
    let well = rt.write_all(input_lines::front(out, n)).is_ok();
    if !well {
        let _ = eprintln!(rt; "shift: an answer could not be written");
    }
    well
}

// Has a piece of the input heard, and writes the answers.
fn talk(
    rt: &(impl Print + Eprint),
    first: Shift,
    len: usize,
    piece: &[u8],
    line: &mut [u8; shift_hearing::LINE],
    room: &mut [u8; limits::DECK_BYTES],
    answer: &mut [u8; schedule_deck::ROOM],
    out: &mut [u8; shift_hearing::OUT],
) -> Talked {
    let mut shift = first;
    let mut kept = len;
    let mut from: usize = 0;
    let mut well = true;
    while from < piece.len() && well {
        let heard = shift_hearing::hear(shift, kept, &piece[from..], line, room, answer, out);
        shift = heard.shift;
        kept = heard.len;
        from += heard.taken;
        well = written(rt, out, heard.at);
    }
    Talked {
        shift,
        len: kept,
        well,
    }
}

// The end of the input, after `len` bytes of a last line.
fn finish(
    rt: &(impl Print + Eprint),
    shift: Shift,
    len: usize,
    line: &[u8; shift_hearing::LINE],
    room: &mut [u8; limits::DECK_BYTES],
    answer: &mut [u8; schedule_deck::ROOM],
) {
    let n = shift_hearing::finish(shift, len, line, room, answer);
    written(rt, answer, n);
}

// Whether nothing more is answered: the configuration was bad.
fn is_over(phase: Phase) -> bool {
    match phase {
        Phase::Begins(_) => false,
        Phase::Talks => false,
        Phase::Gathers(_) => false,
        Phase::Passes => false,
        Phase::Over => true,
    }
}

// A proved loop has to end, and nothing says that the input does: the loop counts its turns down, from a number that
// no run uses up.
fn main(rt: HostRuntime) {
    let mut input = rt.stdin();
    let mut line = [0u8; shift_hearing::LINE];
    let mut room = [0u8; limits::DECK_BYTES];
    let mut answer = [0u8; schedule_deck::ROOM];
    let mut out = [0u8; shift_hearing::OUT];
    let mut shift = shift_turns::fresh();
    let mut len: usize = 0;
    let mut left = u64::MAX;
    while 0 < left {
        let mut piece = [0u8; 4096];
        let n = reading::read(&mut input, &mut piece);
        if n == 0 {
            finish(&rt, shift, len, &line, &mut room, &mut answer);
            return;
        }
        let talked = talk(
            &rt,
            shift,
            len,
            &piece[..n],
            &mut line,
            &mut room,
            &mut answer,
            &mut out,
        );
        shift = talked.shift;
        len = talked.len;
        let phase = shift.phase;
        if is_over(phase) {
            return;
        }
        if !talked.well {
            return;
        }
        left -= 1;
    }
}
