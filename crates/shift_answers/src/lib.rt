// What a call answers, as one line of text in lent room.
#![tactic(auto)]

ghost use Rattle.std.specs.Prelude.{◌≡◌};
ghost use Rattle.text.specs.Room.{Puts};
ghost use Rattle.shift_answers.specs.AnswerLines.{done_text, number_at, started_text, completed_text};
ghost use Rattle.shift_answers.specs.AnswerLines.{status_word, status_text, no_call_text};

use packets::{Begun, Site, Status};
use text::room::Room;

// A call that answers nothing else.
pub fn put_done(out: &mut Room)
    ensures { Puts out.old done_text out.new }
{
    out.put_bytes(b"ACK\n");
}

// The number of the unit, or the address.
fn number_at(at: Site) -> u32
    ensures { result ≡ number_at at }
{
    match at {
        Site::AtUnit(u) => u.0 as u32,
        Site::AtAddress(x) => x,
    }
}

// A start: place, packet, function, unit or address.
pub fn put_started(out: &mut Room, begun: Begun)
    ensures { Puts out.old (started_text begun) out.new }
{
    let place = begun.at;
    let number = number_at(place);
    out.put_bytes(b"ACK ");
    answer_pieces::put_packet(out, begun.place, begun.packet);
    out.put_byte(b' ');
    answer_pieces::put_octal(out, begun.function);
    out.put_byte(b' ');
    out.put_decimal(number as u64);
    out.put_byte(b'\n');
}

// A completion: the place and number of the packet that it ends.
pub fn put_completed(out: &mut Room, place: u8, packet: u8)
    ensures { Puts out.old (completed_text place packet) out.new }
{
    out.put_bytes(b"ACK ");
    answer_pieces::put_packet(out, place, packet);
    out.put_byte(b'\n');
}

// The word for a packet's status; an ended one's with its code.
fn put_status_word(out: &mut Room, status: Status)
    ensures { Puts out.old (status_word status) out.new }
{
    match status {
        Status::Blank => out.put_bytes(b"BLANK"),
        Status::Listed => out.put_bytes(b"LISTED"),
        Status::InProgress => out.put_bytes(b"MOVING"),
        Status::Stopping => out.put_bytes(b"STOPPING"),
        Status::Ended(code) => {
            out.put_bytes(b"ENDED ");
            answer_pieces::put_octal(out, code)
        }
    }
}

// A packet's status.
pub fn put_status(out: &mut Room, status: Status)
    ensures { Puts out.old (status_text status) out.new }
{
    out.put_bytes(b"ACK ");
    put_status_word(out, status);
    out.put_byte(b'\n');
}

// A line that is no call.
pub fn put_no_call(out: &mut Room)
    ensures { Puts out.old no_call_text out.new }
{
    out.put_bytes(b"??\n");
}
