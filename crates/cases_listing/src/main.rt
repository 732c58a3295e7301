// Runs each case of data/ and compares: the arguments are the names of the inputs, each before what must come out.
#![tactic(auto)]

ghost use Rattle.std.specs.Prelude.{true};

use cases::Cases;

// Whether the listing of a text is the wanted one.
fn agrees(text: &[u8], wanted: &[u8]) -> bool {
    let mut room = [0u8; 128];
    let length = configuration_listing::listing(text, &mut room);
    &room[..length] == wanted
}

// Texts and their listings.
struct Texts;

impl Cases for Texts {
    ghost right = { λ _ _. true };

    fn agrees(&self, given: &[u8], due: &[u8]) -> bool {
        agrees(given, due)
    }
}

// Prints how many cases agree.
fn main(rt: HostRuntime) {
    cases::run(&rt, &mut [0u8; 4096], &mut [0u8; 4096], &Texts);
}
