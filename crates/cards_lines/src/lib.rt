// The lines that the deck and cards programs share, in lent room: that of a card error, with the ID that it shows, and
// that of a refused deck.
#![tactic(auto)]

ghost use Rattle.std.specs.Prelude.{◌≡◌};
ghost use Rattle.text.specs.Room.{Puts};
ghost use Rattle.cards_lines.specs.Shown.{shown_by, error_line, refused_text};

use cards_fields::{card, parts};
use cards_request::CardError;
use numbers::Refusal;
use text::room::Room;
use words::Class;

// The ID of a group's PTY card if it is well formed, else the one before.
pub fn shown_by(card: &[u8], shown: [u8; 6]) -> [u8; 6]
    ensures { result ≡ shown_by card.now shown }
{
    if !card::field_is(card, 1, b"PTY") {
        return shown;
    }
    let f = card::field_at(card, 0);
    let n = f.len;
    let b = f.bytes;
    if n < 1 {
        return shown;
    }
    if 6 < n {
        return shown;
    }
    if words::all_of(Class::Alnum, &b[..n]) {
        return [b[0], b[1], b[2], b[3], b[4], b[5]];
    }
    shown
}

// Puts the line of an error.
pub fn put_error(out: &mut Room, id: [u8; 6], error: CardError)
    ensures { Puts out.old (error_line id error) out.new }
{
    out.put_bytes(b"SP ");
    parts::put_name(out, &id);
    out.put_bytes(b" ER ");
    out.put_decimal(cards_request::number_of(error) as u64);
    out.put_byte(b'\n');
}

// The line of a refused deck.
pub fn put_refused(out: &mut Room, refusal: Refusal)
    ensures { Puts out.old (refused_text refusal) out.new }
{
    out.put_bytes(b"SCH ER ");
    out.put_decimal(numbers::number_of(refusal) as u64);
    out.put_byte(b'\n');
}
