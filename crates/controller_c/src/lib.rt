// What C links: the functions of the crate controller under the same names, with the same clauses. Each hands its
// arguments on, and nothing else.
#![tactic(auto)]

ghost use Rattle.std.specs.Prelude.{◌≡◌};
ghost use Rattle.configuration_listing.specs.Listing.{Listed};
ghost use Rattle.schedule_deck.specs.Reading.{Reported};
ghost use Rattle.numbers.specs.Kinds.{kind_of};
ghost use Rattle.configuration.specs.Configured.{configuration_of};
ghost use Rattle.controller.specs.Exports.{bad_line_of, legal_by, Placed, Located};

// The listing of a configuration, into lent room.
#[unsafe(no_mangle)]
pub extern "C" fn luffgravel_listing(config: &[u8], out: &mut [u8]) -> usize
    ensures { Listed config.now out.old out.new result }
{
    controller::luffgravel_listing(config, out)
}

// What the deck program prints, into lent room.
#[unsafe(no_mangle)]
pub extern "C" fn luffgravel_deck(deck: &[u8], out: &mut [u8; schedule_deck::ROOM]) -> usize
    ensures { Reported deck.now out.old out.new result }
{
    controller::luffgravel_deck(deck, out)
}

// The first bad or missing line of a configuration; 0 where the text is one.
#[unsafe(no_mangle)]
pub extern "C" fn luffgravel_bad_line(config: &[u8]) -> usize
    ensures { result ≡ bad_line_of (configuration_of config.now) }
{
    controller::luffgravel_bad_line(config)
}

// Whether a function code is legal on channels of the kind with this code of two letters.
#[unsafe(no_mangle)]
pub extern "C" fn luffgravel_is_legal(first: u8, second: u8, function: u8) -> bool
    ensures { result ≡ legal_by (kind_of first second) function }
{
    controller::luffgravel_is_legal(first, second, function)
}

// Whether ib blocks and db blocks of core are free and apart, and where they start.
#[unsafe(no_mangle)]
pub extern "C" fn luffgravel_core(taken: u32, ib: u32, db: u32, i: &mut u32, j: &mut u32) -> bool
    ensures { Placed taken ib db i.old j.old i.new j.new result }
{
    controller::luffgravel_core(taken, ib, db, i, j)
}

// Which of two decks has the first group of an ID, and where its cards stand there; or the refusal.
#[unsafe(no_mangle)]
pub extern "C" fn luffgravel_desk(
    id: &[u8],
    repair: &[u8],
    day: &[u8],
    deck: &mut u8,
    from: &mut usize,
    length: &mut usize,
) -> u8
    ensures { Located id.now repair.now day.now
        deck.old from.old length.old deck.new from.new length.new result }
{
    controller::luffgravel_desk(id, repair, day, deck, from, length)
}
