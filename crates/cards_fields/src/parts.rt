// A text cut into pieces, each looked at as a part of the text; a piece gathered without its spaces, or put.
ghost use Rattle.std.specs.Prelude.{◌≡◌, [], ◌+◌, ◌||◌, eqb, length, get_or};
ghost use Rattle.text.specs.Class.{is_digit};
ghost use Rattle.text.specs.Room.{Puts};
ghost use Rattle.words.specs.Words.{every, number_in};
ghost use Rattle.cards_fields.specs.Fields.{digits, pieces, spaceless, is_name, field_of, raw_field, up_to_period};

use crate::{Field, card};
use text::room::Room;
use words::Class;

// What stands before a card's first period, as a part of it; all of one that has none.
pub(crate) fn body(card: &[u8]) -> &[u8]
    ensures { result.now ≡ up_to_period card.now }
{
    &card[..words::until(card, b'.')]
}

// The piece at an index of a text that is cut at each of a byte, the first at 0, as a part of it; empty where there is
// none.
pub fn piece_at(s: &[u8], cut: u8, k: usize) -> &[u8]
    ensures { result.now ≡ get_or (pieces cut s.now) k [] }
{
    s.split(|b| *b == cut).nth(k).unwrap_or(&s[..0])
}

// How often a text is cut: as often as it has the byte, once less than it has pieces.
pub fn cuts(s: &[u8], cut: u8) -> usize
    ensures { result + 1 ≡ length (pieces cut s.now) }
{
    s.iter().map(|b| (*b == cut) as usize).sum()
}

// The field at an index of a card as it stands there, its spaces in it, as a part of the card.
pub fn raw_field(card: &[u8], k: usize) -> &[u8]
    ensures { result.now ≡ raw_field card.now k }
{
    piece_at(body(card), b',', k)
}

// A text gathered without its spaces.
pub fn gathered(s: &[u8]) -> Field
    ensures { result ≡ field_of (spaceless s.now) }
{
    let mut f = Field {
        bytes: [b' '; 12],
        len: 0,
    };
    for b in s {
        f = card::with_byte(f, *b);
    }
    f
}

// Whether a text is a name, its spaces dropped: 1-6 letters or digits.
pub fn is_name(s: &[u8]) -> bool
    ensures { result ≡ is_name (spaceless s.now) }
{
    let f = gathered(s);
    1 <= f.len && f.len <= 6 && words::all_of(Class::Alnum, &f.bytes[..f.len])
}

// Whether a byte may stand in a number.
fn is_in_number(b: u8) -> bool
    ensures { result ≡ (eqb b 32 || is_digit b) }
{
    b == b' ' || text::is_digit(b)
}

// Whether each byte of a text may.
fn are_in_number(s: &[u8]) -> bool
    ensures { result ≡ every (λ b. eqb b 32 || is_digit b) s.now }
{
    s.iter().all(|b| is_in_number(*b))
}

// Whether a text is a number, its spaces dropped: digits, and at least one.
pub fn is_number(s: &[u8]) -> bool
    ensures { result ≡ digits (spaceless s.now) }
{
    !words::all_in(b" ", s) && are_in_number(s)
}

// The number that a text writes, its spaces dropped; 0 for one of over six characters.
pub fn number_of(s: &[u8]) -> u32
    ensures { result ≡ number_in (spaceless s.now) }
{
    let f = gathered(s);
    if 6 < f.len {
        return 0;
    }
    words::number(&f.bytes[..f.len])
}

// Puts a name without its blanks.
pub fn put_name(room: &mut Room, name: &[u8])
    ensures { Puts room.old (spaceless name.now) room.new }
{
    for b in name {
        if *b != b' ' {
            room.put_byte(*b);
        }
    }
}
