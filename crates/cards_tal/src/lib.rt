// The TAL card: its entries, the card's errors, and its text from the type on.
#![tactic(auto)]

ghost use Rattle.std.specs.Prelude.{◌≡◌, drop};
ghost use Rattle.text.specs.Room.{Puts};
ghost use Rattle.cards_fields.specs.Fields.{fields, spaceless};
ghost use Rattle.cards_tal.specs.Tal.{is_tal, number_error, entry_error, entries_error, tal_error, entry_text, tal_text};

use cards_fields::{card, parts};
use cards_request::CardError;
use text::room::Room;

// Whether a card is TAL.
pub fn is_tal(card: &[u8]) -> bool
    ensures { result ≡ is_tal card.now }
{
    card::field_is(card, 1, b"TAL")
}

// The error of a text behind the slash: over five characters, none, or not all digits.
#[tactic(auto, unfolding(crate::specs::Tal::number_error))]
fn number_error(s: &[u8]) -> Result<(), CardError>
    ensures { result ≡ number_error (spaceless s.now) }
{
    if 5 < parts::gathered(s).len {
        return Err(CardError::TalLong);
    }
    if !parts::is_number(s) {
        return Err(CardError::TalWrong);
    }
    Ok(())
}

// The error of an entry, cut at its first slash.
fn entry_error(t: &[u8]) -> Result<(), CardError>
    ensures { result ≡ entry_error (spaceless t.now) }
{
    let at = words::until(t, b'/');
    if at == t.len() || !parts::is_name(&t[..at]) {
        return Err(CardError::TalWrong);
    }
    number_error(&t[at + 1..])
}

// The first error of a card's entries, left to right.
fn entries_error(card: &[u8]) -> Result<(), CardError>
    ensures { result ≡ entries_error (drop 2 (fields card.now)) }
{
    for k in 2..=card::last_field(card) {
        entry_error(parts::raw_field(card, k))?;
    }
    Ok(())
}

// The first error of a TAL card by itself.
#[tactic(auto, unfolding(crate::specs::Tal::tal_error))]
pub fn tal_error(card: &[u8]) -> Result<(), CardError>
    ensures { result ≡ tal_error card.now }
{
    if card::is_malformed(card) || card::last_field(card) < 2 {
        return Err(CardError::TalWrong);
    }
    entries_error(card)
}

// Puts an entry: its name, a slash, its number.
fn put_entry(room: &mut Room, t: &[u8])
    ensures { Puts room.old (entry_text (spaceless t.now)) room.new }
{
    let cut = words::until(t, b'/');
    parts::put_name(room, &t[..cut]);
    room.put_byte(b'/');
    if cut == t.len() {
        room.put_decimal(0);
        return;
    }
    room.put_decimal(parts::number_of(&t[cut + 1..]) as u64);
}

// Puts the card from its type on: the entries in the order read, without spaces and leading zeros.
pub fn put_tal(room: &mut Room, card: &[u8])
    ensures { Puts room.old (tal_text card.now) room.new }
{
    room.put_bytes(b"TAL");
    for k in 2..=card::last_field(card) {
        room.put_byte(b',');
        put_entry(room, parts::raw_field(card, k));
    }
    room.put_byte(b'.');
}
