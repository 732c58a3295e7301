// Reads a deck on standard input and prints its report.
#![tactic(auto)]

// A deck has at most 16,384 bytes: of a longer one as much is read as shows that, since the buffer holds more. Where the
// report cannot be written, that is not told.
fn main(rt: HostRuntime) {
    let mut deck = [0u8; 65536];
    let n = reading::fill(&mut rt.stdin(), &mut deck);
    let mut room = [0; schedule_deck::ROOM];
    let length = schedule_deck::report(&deck[..n], &mut room);
    let _ = rt.write_all(&room[..length]);
}
