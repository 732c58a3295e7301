// The desk program: two decks gathered line by line in lent room, and then a line for each ID that is asked for,
// answered in lent room with the request's own cards from the deck that has them.
#![tactic(auto)]

ghost use Rattle.std.specs.Prelude.{◌≡◌, cond, take};
ghost use Rattle.text.specs.Room.{Written, Puts};
ghost use Rattle.words.specs.Lines.{line_text};
ghost use Rattle.answer_pieces.specs.Pieces.{no_line};
ghost use Rattle.cards_fields.specs.Deck.{is_termination};
ghost use Rattle.desk_hearing.specs.Printing.{closing};
ghost use Rattle.desk_hearing.specs.Hearing.{desk_of, fresh, standing, Heard, Ended};
ghost use Rattle.desk_hearing.specs.Putting.{Answered};

use cards_fields::deck;
use desk_show::Which;
use numbers::{Refusal, limits};
use text::room::Room;

// How many bytes are kept of a deck, and of a line: one more than a deck may have.
pub const KEPT: usize = limits::DECK_BYTES + 1;

// How many bytes hold each answer: a part, and the line after it.
pub const ROOM: usize = limits::DECK_BYTES + 12;

// What the next line belongs to: the repair deck, the day's deck, or the IDs that are asked for.
#[derive(Clone, Copy)]
pub enum Stage {
    GathersRepair,
    GathersDay,
    Asks,
}

// What the next line belongs to, and how many bytes of the repair deck, of the day's deck and of that line stand in
// their rooms.
#[derive(Clone, Copy)]
pub struct Desk {
    pub stage: Stage,
    pub repair: usize,
    pub day: usize,
    pub line: usize,
}

// The desk after what was heard, how many bytes of the piece were taken, and how many the answer has.
#[derive(Clone, Copy)]
pub struct Hearing {
    pub desk: Desk,
    pub taken: usize,
    pub at: usize,
}

// A desk of these parts.
fn desk_of(stage: Stage, repair: usize, day: usize, line: usize) -> Desk
    ensures { result ≡ desk_of stage repair day line }
{
    Desk {
        stage,
        repair,
        day,
        line,
    }
}

// The desk after a line, with what it took and answered: written once, so that each way of `hear` stays a line.
fn what_was_heard(desk: Desk, taken: usize, at: usize) -> Hearing
    ensures { result ≡ record { desk = desk; taken = taken; at = at } }
{
    Hearing { desk, taken, at }
}

// Before the first byte of the input.
pub fn fresh() -> Desk
    ensures { result ≡ fresh }
{
    desk_of(Stage::GathersRepair, 0, 0, 0)
}

// Puts a card with its LF behind the bytes of its deck; what is past the room's end is cut off. The room has a byte more
// than a deck may have, so a deck that is cut is as bad as the whole.
fn put_card(room: &mut [u8], kept: usize, card: &[u8]) -> usize
    ensures { Written room.old kept (line_text card.now) room.new result }
{
    let end = text::put_bytes(room, kept, card);
    text::put_byte(room, end, b'\n')
}

// What the line behind a card belongs to: what is next, if that was the termination card.
fn behind_card(card: &[u8], gathers: Stage, next: Stage) -> Stage
    ensures { result ≡ cond (is_termination card.now) next gathers }
{
    if deck::is_termination(card) {
        return next;
    }
    gathers
}

// Puts the line behind the cards: which deck has them, or the refusal.
fn put_closing(out: &mut Room, which: Result<Which, Refusal>)
    ensures { Puts out.old (closing which) out.new }
{
    match which {
        Ok(Which::Repair) => out.put_bytes(b"FROM REPAIR\n"),
        Ok(Which::Day) => out.put_bytes(b"FROM DAY\n"),
        Err(refusal) => answer_pieces::put_refused(out, refusal),
    }
}

// Puts the line of a refusal at the start of lent room.
fn put_refused(out: &mut [u8], refusal: Refusal) -> usize
    ensures { Written out.old 0 (no_line refusal) out.new result }
{
    let mut room = Room { bytes: out, at: 0 };
    answer_pieces::put_refused(&mut room, refusal);
    room.at
}

// Puts the answer to an ID that is asked for into lent room, which holds each: at most the 16,384 bytes of a deck, and the
// 12 of `FROM REPAIR` with its LF.
fn put_answer<'a>(out: &mut [u8; ROOM], id: &[u8], repair: &'a [u8], day: &'a [u8]) -> usize
    ensures { Answered id.now repair.now day.now out.old out.new result }
{
    let found = desk_show::find(id, repair, day);
    let mut room = Room { bytes: out, at: 0 };
    room.put_bytes(desk_show::part_of(found, repair, day));
    put_closing(&mut room, found.which);
    room.at
}

// Hears the first line of a piece of the input, or what the piece has of it: `desk.line` bytes of it came before. When
// its LF has come it is a card of the deck that is being gathered, or an ID that is answered. A line that is longer than
// its room is cut off there, which changes no answer: it makes a deck too long, and is no ID.
pub fn hear(
    desk: Desk,
    piece: &[u8],
    line: &mut [u8; KEPT],
    repair: &mut [u8; KEPT],
    day: &mut [u8; KEPT],
    out: &mut [u8; ROOM],
) -> Hearing
    ensures { Heard (standing desk line.old repair.old day.old) piece.now
        (standing result.desk line.new repair.new day.new)
        result.taken out.old out.new result.at }
{
    let cut = input_lines::take_up(line, desk.line, piece);
    let kept = cut.kept;
    let taken = cut.taken;
    let stage = desk.stage;
    if !cut.whole {
        return what_was_heard(desk_of(stage, desk.repair, desk.day, kept), taken, 0);
    }
    let whole = input_lines::front(line, kept);
    match stage {
        Stage::GathersRepair => {
            let n = put_card(repair, desk.repair, whole);
            let next = behind_card(whole, Stage::GathersRepair, Stage::GathersDay);
            what_was_heard(desk_of(next, n, desk.day, 0), taken, 0)
        }
        Stage::GathersDay => {
            let n = put_card(day, desk.day, whole);
            let next = behind_card(whole, Stage::GathersDay, Stage::Asks);
            what_was_heard(desk_of(next, desk.repair, n, 0), taken, 0)
        }
        Stage::Asks => {
            let first = input_lines::front(repair, desk.repair);
            let second = input_lines::front(day, desk.day);
            let at = put_answer(out, whole, first, second);
            what_was_heard(desk_of(Stage::Asks, desk.repair, desk.day, 0), taken, at)
        }
    }
}

// The end of the input: a last line without LF is answered; before both decks have come nothing can be asked.
pub fn finish<'a>(
    desk: Desk,
    line: &[u8; KEPT],
    repair: &'a [u8; KEPT],
    day: &'a [u8; KEPT],
    out: &mut [u8; ROOM],
) -> usize
    ensures { Ended (standing desk line.now repair.now day.now)
        out.old out.new result }
{
    let stage = desk.stage;
    match stage {
        Stage::GathersRepair => put_refused(out, Refusal::BadDeck),
        Stage::GathersDay => put_refused(out, Refusal::BadDeck),
        Stage::Asks => {
            if desk.line == 0 {
                return 0;
            }
            let first = input_lines::front(repair, desk.repair);
            let second = input_lines::front(day, desk.day);
            put_answer(out, input_lines::front(line, desk.line), first, second)
        }
    }
}
