// Runs each case of data/ and compares: the arguments are the names of the inputs, each before what must come out.
#![tactic(auto)]

ghost use Rattle.std.specs.Prelude.{true};

use cases::Cases;

// Whether the report of a deck is the wanted one.
fn agrees(deck: &[u8], wanted: &[u8]) -> bool {
    let mut room = [0; schedule_deck::ROOM];
    let length = schedule_deck::report(deck, &mut room);
    &room[..length] == wanted
}

// Decks and their reports.
struct Decks;

impl Cases for Decks {
    ghost right = { λ _ _. true };

    fn agrees(&self, given: &[u8], due: &[u8]) -> bool {
        agrees(given, due)
    }
}

// Prints how many cases agree.
fn main(rt: HostRuntime) {
    cases::run(&rt, &mut [0u8; 65536], &mut [0u8; 65536], &Decks);
}
