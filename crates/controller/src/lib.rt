// What a controller calls: functions over numbers and lent bytes. Each hands its arguments on and keeps the promise of
// the function that it calls. None has a state of its own or a `requires`. The crate controller_c exports them under
// these names; what no contract can ask of a caller in another language is in docs/LINKING.md.
#![tactic(auto)]

ghost use Rattle.std.specs.Prelude.{◌≡◌};
ghost use Rattle.configuration_listing.specs.Listing.{Listed};
ghost use Rattle.schedule_deck.specs.Reading.{Reported};
ghost use Rattle.numbers.specs.Kinds.{kind_of};
ghost use Rattle.configuration.specs.Configured.{configuration_of};
ghost use Rattle.controller.specs.Exports.{bad_line_of, legal_by, deck_number, Placed, Located};

use channels::Configuration;
use configuration::BadLine;
use desk_show::Which;

// Puts the listing of a configuration into lent room and answers its length. 96 bytes are enough; a smaller room gets
// what fits.
pub fn luffgravel_listing(config: &[u8], out: &mut [u8]) -> usize
    ensures { Listed config.now out.old out.new result }
{
    configuration_listing::listing(config, out)
}

// Puts what the deck program prints into lent room and answers its length. The room holds every report, so nothing is
// cut.
pub fn luffgravel_deck(deck: &[u8], out: &mut [u8; schedule_deck::ROOM]) -> usize
    ensures { Reported deck.now out.old out.new result }
{
    schedule_deck::report(deck, out)
}

// The number by which the reader's answer goes.
fn bad_line_of(answer: Result<Configuration, BadLine>) -> usize
    ensures { result ≡ bad_line_of answer }
{
    match answer {
        Ok(_) => 0,
        Err(bad) => bad.0,
    }
}

// The first bad or missing line of a configuration, counted from 1; 0 where the text is one.
pub fn luffgravel_bad_line(config: &[u8]) -> usize
    ensures { result ≡ bad_line_of (configuration_of config.now) }
{
    bad_line_of(configuration::read(config))
}

// Whether a function code is legal on channels of the kind with this code of two letters; none is on any other's.
pub fn luffgravel_is_legal(first: u8, second: u8, function: u8) -> bool
    ensures { result ≡ legal_by (kind_of first second) function }
{
    let coded = numbers::kind_of(first, second);
    match coded {
        Some(kind) => functions::legal(kind, function),
        None => false,
    }
}

// Whether ib blocks and db blocks of core are free and apart; then the least pair of starts, IB's and DB's, is put
// into i and j. A set bit is a taken block.
pub fn luffgravel_core(taken: u32, ib: u32, db: u32, i: &mut u32, j: &mut u32) -> bool
    ensures { Placed taken ib db i.old j.old i.new j.new result }
{
    let Some(pair) = assign_core::search(taken, ib, db) else {
        return false;
    };
    *i = pair.0;
    *j = pair.1;
    true
}

// The number of a deck: 1 the repair deck and 2 the day's.
fn deck_number(which: Which) -> u8
    ensures { result ≡ deck_number which }
{
    // Stays: these numbers are C's, and the crate desk_show has none.
    match which {
        Which::Repair => 1,
        Which::Day => 2,
    }
}

// Which of two decks has the first group of an ID, put into deck, 1 the repair deck and 2 the day's, and where its cards
// stand there, put into from and length, and 0 answers; or the refusal, 11 or 22, and all three are kept.
pub fn luffgravel_desk(
    id: &[u8],
    repair: &[u8],
    day: &[u8],
    deck: &mut u8,
    from: &mut usize,
    length: &mut usize,
) -> u8
    ensures { Located id.now repair.now day.now
        deck.old from.old length.old deck.new from.new length.new result }
{
    let found = desk_show::find(id, repair, day);
    match found.which {
        Ok(which) => {
            *deck = deck_number(which);
            *from = found.from;
            *length = found.len;
            0
        }
        Err(refusal) => numbers::number_of(refusal),
    }
}
