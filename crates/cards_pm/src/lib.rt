// The PM cards: the number, the text as it stands, what is wrong with a card, and its text from the type on.
#![tactic(auto)]

ghost use Rattle.std.specs.Prelude.{◌≡◌, length};
ghost use Rattle.text.specs.Room.{Puts};
ghost use Rattle.cards_pm.specs.Pm.{is_pm, numbered, digit_of, body, behind_comma, letters, pm_malformed, pm_fault, pm_text};

use cards_fields::card;
use numbers::limits;
use text::room::Room;

// Whether a card is PM: its type begins so.
pub fn is_pm(card: &[u8]) -> bool
    ensures { result ≡ is_pm card.now }
{
    let f = card::field_at(card, 1);
    let b = f.bytes;
    b[0] == b'P' && b[1] == b'M'
}

// Whether a PM card's number is right: one digit, and nothing behind it.
pub fn is_numbered(card: &[u8]) -> bool
    ensures { result ≡ numbered card.now }
{
    let f = card::field_at(card, 1);
    f.len == 3 && text::is_digit(f.bytes[2])
}

// A PM card's digit, as it stands on the card.
pub fn digit_of(card: &[u8]) -> u8
    ensures { result ≡ digit_of card.now }
{
    card::field_at(card, 1).bytes[2]
}

// How much stands before a card's last period; the whole length where there is none.
fn body_len(card: &[u8]) -> usize
    ensures { result ≡ length (body card.now) }
{
    for n in (0..card.len()).rev() {
        if card[n] == b'.' {
            return n;
        }
    }
    card.len()
}

// What stands behind a text's first comma, as a part of it; nothing where there is none.
fn behind_comma(s: &[u8]) -> &[u8]
    ensures { result.now ≡ behind_comma s.now }
{
    let at = words::until(s, b',');
    if at == s.len() {
        return &s[0..0];
    }
    &s[at + 1..]
}

// A card's text as it stands: behind its second comma and before its last period.
pub fn letters(card: &[u8]) -> &[u8]
    ensures { result.now ≡ letters card.now }
{
    let n = body_len(card);
    behind_comma(behind_comma(&card[..n]))
}

// Whether a PM card is malformed. Its length comes first, so that a long card is not looked at.
fn is_malformed(card: &[u8]) -> bool
    ensures { result ≡ pm_malformed card.now }
{
    if limits::CARD_LENGTH < card.len() || !card::are_card_bytes(card) {
        return true;
    }
    let n = body_len(card);
    if n == card.len() {
        return true;
    }
    !words::all_in(b" ", &card[n + 1..]) || !words::is_in(behind_comma(&card[..n]), b',')
}

// Whether a PM card is malformed or has a text of over 66 characters.
pub fn is_fault(card: &[u8]) -> bool
    ensures { result ≡ pm_fault card.now }
{
    is_malformed(card) || limits::PM_LENGTH < letters(card).len()
}

// Puts the card from its type on, the text as it stands.
pub fn put_pm(room: &mut Room, card: &[u8])
    ensures { Puts room.old (pm_text card.now) room.new }
{
    room.put_bytes(b"PM");
    room.put_byte(digit_of(card));
    room.put_byte(b',');
    room.put_bytes(letters(card));
    room.put_byte(b'.');
}
