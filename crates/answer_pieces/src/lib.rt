// Pieces of text that the answers and the board of the shift program share, and the line of a refused call, which the
// desk program prints too.
#![tactic(auto)]

ghost use Rattle.std.specs.Prelude.{◌≡◌};
ghost use Rattle.text.specs.Room.{Puts};
ghost use Rattle.text.specs.Writing.{octal_text};
ghost use Rattle.answer_pieces.specs.Pieces.{unit_text, packet_text, last_of, span_text, word_text};
ghost use Rattle.answer_pieces.specs.Pieces.{no_text, no_line};

use numbers::{ChannelNumber, Refusal, UnitNumber};
use text::room::Room;

// Puts a number as two octal digits.
pub fn put_octal(room: &mut Room, n: u8)
    ensures { Puts room.old (octal_text n) room.new }
{
    room.put_octal(n);
}

// Puts a unit: its channel and its number there.
pub fn put_unit(room: &mut Room, channel: ChannelNumber, unit: UnitNumber)
    ensures { Puts room.old (unit_text channel.0 unit.0) room.new }
{
    room.put_two(channel.0);
    room.put_byte(b'/');
    room.put_two(unit.0);
}

// Puts a packet: the place of its job and its number there.
pub fn put_packet(room: &mut Room, place: u8, packet: u8)
    ensures { Puts room.old (packet_text place packet) room.new }
{
    room.put_decimal(place as u64);
    room.put_byte(b' ');
    room.put_decimal(packet as u64);
}

// The last of some numbers in a row; the first where there are none.
fn last_of(first: u32, count: u32) -> u64
    ensures { result ≡ last_of first count }
{
    first as u64 + count.saturating_sub(1) as u64
}

// Puts the first and the last of some numbers in a row.
pub fn put_span(room: &mut Room, first: u32, count: u32)
    ensures { Puts room.old (span_text first count) room.new }
{
    room.put_decimal(first as u64);
    room.put_byte(b'-');
    room.put_decimal(last_of(first, count));
}

// Puts a word where it holds, else nothing.
pub fn put_word(room: &mut Room, holds: bool, word: &[u8])
    ensures { Puts room.old (word_text holds word.now) room.new }
{
    if holds {
        room.put_bytes(word);
    }
}

// The number of a refusal, behind its word.
pub fn put_no(out: &mut Room, refusal: Refusal)
    ensures { Puts out.old (no_text refusal) out.new }
{
    out.put_bytes(b"NO ");
    out.put_decimal(numbers::number_of(refusal) as u64);
}

// A refused call.
pub fn put_refused(out: &mut Room, refusal: Refusal)
    ensures { Puts out.old (no_line refusal) out.new }
{
    put_no(out, refusal);
    out.put_byte(b'\n');
}
