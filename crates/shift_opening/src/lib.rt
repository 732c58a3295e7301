// The configuration in front of a script, as its lines come: they are kept in lent room until they are a configuration
// or one of them is bad.
#![tactic(auto)]

ghost use Rattle.text.specs.Room.{Puts};
ghost use Rattle.shift_opening.specs.Openings.{Keeps, begun_text, AnswersOpening, Opens, Unfinished};

use numbers::limits;
use shift_begin::Begun;
use text::room::Room;

// What the lines so far begin, how many bytes of them are kept in the room, and where the answer ends in the room for
// it.
#[derive(Clone, Copy)]
pub struct Opening {
    pub begun: Begun,
    pub kept: usize,
    pub at: usize,
}

// Puts a text behind what is kept; what is past the room's end is cut off.
fn keep(room: &mut [u8; limits::DECK_BYTES], kept: usize, text: &[u8]) -> usize
    ensures { Keeps room.old kept text.now room.new result }
{
    let mut end = Room {
        bytes: room,
        at: kept.min(limits::DECK_BYTES),
    };
    end.put_bytes(text);
    end.at
}

// Puts the line of a bad configuration; nothing while more is due, and nothing for a good one.
fn put_begun(room: &mut Room, begun: Begun)
    ensures { Puts room.old (begun_text begun) room.new }
{
    match begun {
        Begun::More | Begun::Good(_) => {}
        Begun::Bad(bad) => configuration_listing::put_error(room, bad),
    }
}

// What is answered to what the text so far begins.
fn answered(begun: Begun, kept: usize, out: &mut [u8]) -> Opening
    ensures { AnswersOpening begun kept out.old out.new result }
{
    let mut room = Room { bytes: out, at: 0 };
    put_begun(&mut room, begun);
    Opening {
        begun,
        kept,
        at: room.at,
    }
}

// The next line of the configuration, without its LF, and what is answered to it.
pub fn take_line(
    kept: usize,
    line: &[u8],
    room: &mut [u8; limits::DECK_BYTES],
    out: &mut [u8],
) -> Opening
    ensures { Opens kept line.now room.old room.new out.old out.new result }
{
    let end = keep(room, kept, line);
    let n = keep(room, end, b"\n");
    answered(shift_begin::judge(&room[..n], n < 2048), n, out)
}

// The end of the input before the configuration is whole, and what is left of it behind the last LF.
pub fn end_of_input(
    kept: usize,
    rest: &[u8],
    room: &mut [u8; limits::DECK_BYTES],
    out: &mut [u8],
) -> usize
    ensures { Unfinished kept rest.now room.old room.new out.old out.new result }
{
    let n = keep(room, kept, rest);
    answered(shift_begin::judge(&room[..n], false), n, out).at
}
