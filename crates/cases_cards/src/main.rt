// Runs each case of data/ and compares: the arguments are the names of the decks, each before what must come out. A deck
// is printed piece by piece, and each piece is compared with what is left of the wanted text.
#![tactic(auto)]

ghost use Rattle.std.specs.Prelude.{true};

use cards_report::Coming;
use cases::Cases;

// Whether what is printed of a deck is a text; the loop counts its turns down, as the program's does.
fn prints(deck: &[u8], wanted: &[u8]) -> bool {
    let mut room = [0u8; cards_report::ROOM];
    let mut printing = cards_report::begin(deck);
    let mut from: usize = 0;
    let mut left = cards_report::TURNS;
    while 0 < left {
        if matches!(printing.coming, Coming::Over) {
            return from == wanted.len();
        }
        let printed = cards_report::next(deck, printing, &mut room);
        let at = printed.at;
        printing = printed.printing;
        if wanted.len() < from {
            return false;
        }
        if wanted.len() - from < at {
            return false;
        }
        if &room[..at] != &wanted[from..from + at] {
            return false;
        }
        from += at;
        left -= 1;
    }
    false
}

// Decks and what is printed of them.
struct Decks;

impl Cases for Decks {
    ghost right = { λ _ _. true };

    fn agrees(&self, given: &[u8], due: &[u8]) -> bool {
        prints(given, due)
    }
}

// Prints how many cases agree.
fn main(rt: HostRuntime) {
    cases::run(&rt, &mut [0u8; 65536], &mut [0u8; 65536], &Decks);
}
