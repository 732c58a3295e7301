// Reads a deck on standard input and prints each request's cards as they are written, and its parameter table.
#![tactic(auto)]

use cards_report::Coming;

// A deck has at most 16,384 bytes: of a longer one as much is read as shows that, since the buffer holds more. It is
// printed group by group. A proved loop has to end: this one counts its turns down, from as many as print every deck.
// Where a piece cannot be written, that is not told.
fn main(rt: HostRuntime) {
    let mut deck = [0u8; 65536];
    let n = reading::fill(&mut rt.stdin(), &mut deck);
    let mut room = [0u8; cards_report::ROOM];
    let mut printing = cards_report::begin(&deck[..n]);
    let mut left = cards_report::TURNS;
    while 0 < left {
        if matches!(printing.coming, Coming::Over) {
            return;
        }
        let printed = cards_report::next(&deck[..n], printing, &mut room);
        let at = printed.at;
        printing = printed.printing;
        let _ = rt.write_all(&room[..at]);
        left -= 1;
    }
}
