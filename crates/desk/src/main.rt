// Two decks on the desk: reads the repair deck, the day's deck and then IDs on standard input, and prints for each ID the
// request's own cards from the deck that has them, as soon as its line has come.
#![tactic(auto)]

use desk_hearing::Desk;

// The desk after a piece, and whether its answers could be written.
#[derive(Clone, Copy)]
struct Talked {
    desk: Desk,
    well: bool,
}

// Writes the first n bytes, and answers whether that went well; where it did not, says so on standard error.
fn written(rt: &(impl Print + Eprint), out: &[u8], n: usize) -> bool {
    let well = rt.write_all(input_lines::front(out, n)).is_ok();
    if !well {
        let _ = eprintln!(rt; "desk: an answer could not be written");
    }
    well
}

// Has the lines of a piece of the input heard, and writes each answer.
fn talk(
    rt: &(impl Print + Eprint),
    first: Desk,
    piece: &[u8],
    line: &mut [u8; desk_hearing::KEPT],
    repair: &mut [u8; desk_hearing::KEPT],
    day: &mut [u8; desk_hearing::KEPT],
    out: &mut [u8; desk_hearing::ROOM],
) -> Talked {
    let mut desk = first;
    let mut from: usize = 0;
    let mut well = true;
    while from < piece.len() && well {
        let heard = desk_hearing::hear(desk, &piece[from..], line, repair, day, out);
        desk = heard.desk;
        from += heard.taken;
        well = written(rt, out, heard.at);
    }
    Talked { desk, well }
}

// The end of the input, after what stands in the rooms.
fn finish<'a>(
    rt: &(impl Print + Eprint),
    desk: Desk,
    line: &[u8; desk_hearing::KEPT],
    repair: &'a [u8; desk_hearing::KEPT],
    day: &'a [u8; desk_hearing::KEPT],
    out: &mut [u8; desk_hearing::ROOM],
) {
    let n = desk_hearing::finish(desk, line, repair, day, out);
    written(rt, out, n);
}

// A proved loop has to end, and nothing says that the input does: the loop counts its turns down, from a number that
// no run uses up.
fn main(rt: HostRuntime) {
    let mut input = rt.stdin();
    let mut line = [0u8; desk_hearing::KEPT];
    let mut repair = [0u8; desk_hearing::KEPT];
    let mut day = [0u8; desk_hearing::KEPT];
    let mut out = [0u8; desk_hearing::ROOM];
    let mut desk = desk_hearing::fresh();
    let mut left = u64::MAX;
    while 0 < left {
        let mut piece = [0u8; 4096];
        let n = reading::read(&mut input, &mut piece);
        if n == 0 {
            finish(&rt, desk, &line, &repair, &day, &mut out);
            return;
        }
        let talked = talk(
            &rt,
            desk,
            &piece[..n],
            &mut line,
            &mut repair,
            &mut day,
            &mut out,
        );
        desk = talked.desk;
        if !talked.well {
            return;
        }
        left -= 1;
    }
}
