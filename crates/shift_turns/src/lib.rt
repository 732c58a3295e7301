// A shift, line by line: first the configuration, then calls and decks. What is being gathered, a configuration or a
// deck, stands in lent room.
#![tactic(auto)]

ghost use Rattle.std.specs.Prelude.{◌≡◌, ◌≤◌, length, take};
ghost use Rattle.text.specs.Room.{Written};
ghost use Rattle.cards_fields.specs.Deck.{is_termination};
ghost use Rattle.shift_turns.specs.Turns.{fresh_shift, opening_turn, Begins, after_line, Talks, PassSays, Entered, Gathers};
ghost use Rattle.shift_turns.specs.Turns.{Turns, end_text, Closes, Ends};

use cell::Cell;
use channels::Configuration;
use numbers::{Refusal, limits};
use shift_begin::Begun;
use shift_opening::Opening;
use shift_script::Line;
use text::room::Room;

// The configuration is being read, and so many bytes of it stand in the room; lines are answered; a deck is gathered,
// and so many bytes of it stand in the room; a deck that is too long goes by, up to its termination card; the
// configuration was bad, and nothing is answered.
#[derive(Clone, Copy)]
pub enum Phase {
    Begins(usize),
    Talks,
    Gathers(usize),
    Passes,
    Over,
}

// The phase, and the cell, which is the fresh one of no configuration until there is one.
#[derive(Clone, Copy)]
pub struct Shift {
    pub phase: Phase,
    pub cell: Cell,
}

// The shift after a line, and where the answer ends in the room for it.
#[derive(Clone, Copy)]
pub struct Turn {
    pub shift: Shift,
    pub at: usize,
}

// Before the first line.
pub fn fresh() -> Shift
    ensures { result ≡ fresh_shift }
{
    Shift {
        phase: Phase::Begins(0),
        cell: cell::fresh(Configuration {
            channels: channels::no_channels(),
            down: [false; 256],
            codes: 0,
        }),
    }
}

// A turn to this phase.
fn turned(phase: Phase, cell: Cell, at: usize) -> Turn
    ensures { result ≡ record { shift = record { phase = phase; cell = cell }; at = at } }
{
    Turn {
        shift: Shift { phase, cell },
        at,
    }
}

// The turn of a line of the configuration: more is due, the cell is the fresh one, or nothing is answered any more.
fn opened(opening: Opening, cell: Cell) -> Turn
    ensures { result ≡ opening_turn opening cell }
{
    match opening.begun {
        Begun::More => turned(Phase::Begins(opening.kept), cell, opening.at),
        Begun::Good(configuration) => turned(Phase::Talks, cell::fresh(configuration), opening.at),
        Begun::Bad(_) => turned(Phase::Over, cell, opening.at),
    }
}

// A line of the configuration.
fn begins(
    cell: Cell,
    kept: usize,
    line: &[u8],
    room: &mut [u8; limits::DECK_BYTES],
    out: &mut [u8; schedule_deck::ROOM],
) -> Turn
    ensures { Begins cell kept line.now room.old room.new out.old out.new result }
{
    opened(shift_opening::take_line(kept, line, room, out), cell)
}

// The phase after a line.
fn after_line(call: Line) -> Phase
    ensures { result ≡ after_line call }
{
    match call {
        Line::Deck => Phase::Gathers(0),
        _ => Phase::Talks,
    }
}

// A line that is answered.
fn talks(cell: Cell, line: &[u8], out: &mut [u8; schedule_deck::ROOM]) -> Turn
    ensures { Talks cell line.now out.old out.new result }
{
    let said = shift_script::read_line(line);
    let call = said.line;
    let replied = shift_reply::reply_line(cell, said, line, out);
    let after = replied.cell;
    turned(after_line(call), after, replied.at)
}

// A card of a deck that is too long.
fn passes(cell: Cell, line: &[u8], out: &mut [u8; schedule_deck::ROOM]) -> Turn
    ensures { PassSays (is_termination line.now) cell out.old out.new result }
{
    if shift_deck::is_last_card(line) {
        let mut room = Room { bytes: out, at: 0 };
        answer_pieces::put_refused(&mut room, Refusal::BadDeck);
        return turned(Phase::Talks, cell, room.at);
    }
    turned(Phase::Passes, cell, 0)
}

// A deck that is complete: the first n bytes of the room.
fn entered(cell: Cell, room: &[u8], n: usize, out: &mut [u8; schedule_deck::ROOM]) -> Turn
    requires { n ≤ length room.now }
    ensures { Entered cell (take n room.now) out.old out.new result }
{
    let replied = shift_reply::reply_deck(cell, &room[..n], out);
    let after = replied.cell;
    turned(Phase::Talks, after, replied.at)
}

// A card of a deck.
fn gathers(
    cell: Cell,
    kept: usize,
    line: &[u8],
    room: &mut [u8; limits::DECK_BYTES],
    out: &mut [u8; schedule_deck::ROOM],
) -> Turn
    ensures { Gathers cell kept line.now room.old
        room.new out.old out.new result }
{
    let Some(n) = shift_deck::add_card(room, kept, line) else {
        return passes(cell, line, out);
    };
    if shift_deck::is_last_card(line) {
        return entered(cell, room, n, out);
    }
    turned(Phase::Gathers(n), cell, 0)
}

// The next line, without its LF, and what is answered to it.
pub fn take_line(
    shift: Shift,
    line: &[u8],
    room: &mut [u8; limits::DECK_BYTES],
    out: &mut [u8; schedule_deck::ROOM],
) -> Turn
    ensures { Turns shift.phase shift.cell line.now
        room.old room.new out.old out.new result }
{
    let phase = shift.phase;
    let cell = shift.cell;
    match phase {
        Phase::Begins(kept) => begins(cell, kept, line, room, out),
        Phase::Talks => talks(cell, line, out),
        Phase::Gathers(kept) => gathers(cell, kept, line, room, out),
        Phase::Passes => passes(cell, line, out),
        Phase::Over => turned(Phase::Over, cell, 0),
    }
}

// The answer to a deck whose termination card did not come.
fn close(phase: Phase, at: usize, out: &mut [u8; schedule_deck::ROOM]) -> usize
    ensures { Written out.old at (end_text phase) out.new result }
{
    match phase {
        Phase::Begins(_) | Phase::Talks | Phase::Over => at,
        Phase::Gathers(_) | Phase::Passes => {
            let mut room = Room { bytes: out, at };
            answer_pieces::put_refused(&mut room, Refusal::BadDeck);
            room.at
        }
    }
}

// A last line without LF, or none, and what its shift leaves unanswered.
fn closes(
    shift: Shift,
    rest: &[u8],
    room: &mut [u8; limits::DECK_BYTES],
    out: &mut [u8; schedule_deck::ROOM],
) -> usize
    ensures { Closes shift.phase shift.cell rest.now
        room.old room.new out.old out.new result }
{
    if rest.is_empty() {
        return close(shift.phase, 0, out);
    }
    let last = take_line(shift, rest, room, out);
    close(last.shift.phase, last.at, out)
}

// The end of the input, and what is left of it behind the last LF.
pub fn end_of_input(
    shift: Shift,
    rest: &[u8],
    room: &mut [u8; limits::DECK_BYTES],
    out: &mut [u8; schedule_deck::ROOM],
) -> usize
    ensures { Ends shift.phase shift.cell rest.now
        room.old room.new out.old out.new result }
{
    match shift.phase {
        Phase::Begins(kept) => shift_opening::end_of_input(kept, rest, room, out),
        _ => closes(shift, rest, room, out),
    }
}
