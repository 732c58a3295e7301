// Runs each case of data/ and compares: the arguments are the names of the inputs, each before what must come out. Each
// input is played whole, and then once more in pieces of seven bytes, which end within lines and termination cards.
#![tactic(auto)]

ghost use Rattle.std.specs.Prelude.{true, ◌≤◌, ◌<◌};

use cases::Cases;

// Where a piece of this size ends that starts before the end of an input.
fn end_of(at: usize, size: usize, len: usize) -> usize
    requires { (at < len) × (0 < size) }
    ensures { (at < result) × (result ≤ len) }
{
    if len - at < size {
        return len;
    }
    at + size
}

// Plays an input in pieces of a size: all that is printed, put behind each other, and how long that is.
fn play(
    input: &[u8],
    size: usize,
    out: &mut [u8; desk_hearing::ROOM],
    said: &mut [u8; 65536],
) -> usize
    requires { 0 < size }
{
    let mut line = [0u8; desk_hearing::KEPT];
    let mut repair = [0u8; desk_hearing::KEPT];
    let mut day = [0u8; desk_hearing::KEPT];
    let mut desk = desk_hearing::fresh();
    let mut at: usize = 0;
    let mut len: usize = 0;
    while at < input.len() {
        let end = end_of(at, size, input.len());
        let piece = &input[at..end];
        let heard = desk_hearing::hear(desk, piece, &mut line, &mut repair, &mut day, out);
        desk = heard.desk;
        at += heard.taken;
        len = text::put_bytes(said, len, input_lines::front(out, heard.at));
    }
    let last = desk_hearing::finish(desk, &line, &repair, &day, out);
    text::put_bytes(said, len, input_lines::front(out, last))
}

// Whether all that is printed of an input, whole and in pieces, is this text.
fn prints(input: &[u8], wanted: &[u8]) -> bool {
    let mut out = [0u8; desk_hearing::ROOM];
    let mut said = [0u8; 65536];
    let whole = play(input, 65536, &mut out, &mut said);
    if input_lines::front(&said, whole) != wanted {
        return false;
    }
    let pieces = play(input, 7, &mut out, &mut said);
    input_lines::front(&said, pieces) == wanted
}

// A desk's inputs and what is printed of them.
struct Desks;

impl Cases for Desks {
    ghost right = { λ _ _. true };

    fn agrees(&self, given: &[u8], due: &[u8]) -> bool {
        prints(given, due)
    }
}

// Prints how many cases agree.
fn main(rt: HostRuntime) {
    cases::run(&rt, &mut [0u8; 65536], &mut [0u8; 65536], &Desks);
}
