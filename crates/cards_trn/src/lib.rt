// The TRN card: its receiving count, its transfers, the card's errors, and its text from the type on.
#![tactic(auto)]

ghost use Rattle.std.specs.Prelude.{◌≡◌, ◌<◌, drop};
ghost use Rattle.text.specs.Room.{Puts};
ghost use Rattle.cards_fields.specs.Fields.{fields, spaceless, tail_text};
ghost use Rattle.cards_trn.specs.Trn.{is_trn, is_count, has_count, count_error, is_type, is_executive, is_successor, right_at, part_error, parts_error};
ghost use Rattle.cards_trn.specs.Trn.{transfer_error, third_error, transfers_error, trn_error, third_text, trn_text};

use cards_fields::{card, parts};
use cards_request::CardError;
use text::room::Room;

// The longest legal parts: name 1, type, successor, name 2.
const MOST: [usize; 4] = [6, 2, 6, 6];

// Whether a card is TRN.
pub fn is_trn(card: &[u8]) -> bool
    ensures { result ≡ is_trn card.now }
{
    card::field_is(card, 1, b"TRN")
}

// Whether a third field is a count: it has no slash.
fn is_count(t: &[u8]) -> bool
    ensures { result ≡ is_count (spaceless t.now) }
{
    !words::is_in(t, b'/')
}

// Whether a card has a receiving count.
pub fn has_count(card: &[u8]) -> bool
    ensures { result ≡ has_count card.now }
{
    2 <= card::last_field(card) && is_count(parts::raw_field(card, 2))
}

// The error of a count; `counted`: an earlier card of the group has one.
#[tactic(auto, unfolding(crate::specs::Trn::count_error))]
fn count_error(t: &[u8], counted: bool) -> Result<(), CardError>
    ensures { result ≡ count_error counted (spaceless t.now) }
{
    if 2 < parts::gathered(t).len {
        return Err(CardError::TrnLong);
    }
    if counted || !parts::is_number(t) {
        return Err(CardError::TrnWrong);
    }
    Ok(())
}

// Whether a text is a transfer's type, its spaces dropped.
fn is_type(t: &[u8]) -> bool
    ensures { result ≡ is_type (spaceless t.now) }
{
    let f = parts::gathered(t);
    f.len <= 2 && is_type_word(&f.bytes[..f.len])
}

// Whether a word is one of the types.
fn is_type_word(t: &[u8]) -> bool
    ensures { result ≡ is_type t.now }
{
    words::is_same(t, b"D")
        || words::is_same(t, b"T")
        || words::is_same(t, b"N")
        || words::is_same(t, b"*T")
        || words::is_same(t, b"*N")
}

// Whether a text is a transfer's successor, its spaces dropped: as a name, or the executive.
fn is_successor(t: &[u8]) -> bool
    ensures { result ≡ is_successor (spaceless t.now) }
{
    if parts::is_name(t) {
        return true;
    }
    let f = parts::gathered(t);
    f.len <= 6 && is_executive(&f.bytes[..f.len])
}

// Whether a word is the executive.
fn is_executive(t: &[u8]) -> bool
    ensures { result ≡ is_executive t.now }
{
    words::is_same(t, b"*REQ") || words::is_same(t, b"*PLB")
}

// Whether a transfer's part is right: name 1, type, successor, name 2.
fn is_right(k: usize, t: &[u8]) -> bool
    requires { k < 4 }
    ensures { result ≡ right_at k (spaceless t.now) }
{
    match k {
        1 => is_type(t),
        2 => is_successor(t),
        _ => parts::is_name(t),
    }
}

// The error of a transfer's part: its length first.
fn part_error(t: &[u8], k: usize) -> Result<(), CardError>
    requires { k < 4 }
    ensures { result ≡ part_error (spaceless t.now) k }
{
    let part = parts::piece_at(t, b'/', k);
    if MOST[k] < parts::gathered(part).len {
        return Err(CardError::TrnLong);
    }
    if !is_right(k, part) {
        return Err(CardError::TrnWrong);
    }
    Ok(())
}

// The first error of a transfer's parts, left to right.
fn parts_error(t: &[u8]) -> Result<(), CardError>
    ensures { result ≡ parts_error (spaceless t.now) }
{
    for k in 0..4 {
        part_error(t, k)?;
    }
    Ok(())
}

// The error of a transfer: its parts, then that there are more than four.
fn transfer_error(t: &[u8]) -> Result<(), CardError>
    ensures { result ≡ transfer_error (spaceless t.now) }
{
    parts_error(t)?;
    if 3 < parts::cuts(t, b'/') {
        return Err(CardError::TrnWrong);
    }
    Ok(())
}

// The error of a third field: a count or a transfer.
fn third_error(t: &[u8], counted: bool) -> Result<(), CardError>
    ensures { result ≡ third_error counted (spaceless t.now) }
{
    if is_count(t) {
        count_error(t, counted)
    } else {
        transfer_error(t)
    }
}

// The first error of the transfers behind the third field, left to right.
fn transfers_error(card: &[u8]) -> Result<(), CardError>
    ensures { result ≡ transfers_error (drop 3 (fields card.now)) }
{
    for k in 3..=card::last_field(card) {
        transfer_error(parts::raw_field(card, k))?;
    }
    Ok(())
}

// The first error of a TRN card by itself; `counted`: an earlier card of the group has a count.
pub fn trn_error(card: &[u8], counted: bool) -> Result<(), CardError>
    ensures { result ≡ trn_error counted card.now }
{
    if card::is_malformed(card) || card::last_field(card) < 2 {
        return Err(CardError::TrnWrong);
    }
    third_error(parts::raw_field(card, 2), counted)?;
    transfers_error(card)
}

// Puts a third field: a count without leading zeros, a transfer without its spaces.
fn put_third(room: &mut Room, t: &[u8])
    ensures { Puts room.old (third_text (spaceless t.now)) room.new }
{
    if is_count(t) {
        room.put_decimal(parts::number_of(t) as u64);
        return;
    }
    parts::put_name(room, t);
}

// Puts the fields behind the third, each behind a comma, and the period.
fn put_transfers(room: &mut Room, card: &[u8])
    ensures { Puts room.old (tail_text (drop 3 (fields card.now))) room.new }
{
    for k in 3..=card::last_field(card) {
        room.put_byte(b',');
        parts::put_name(room, parts::raw_field(card, k));
    }
    room.put_byte(b'.');
}

// Puts the card from its type on: the count, if it has one, and the transfers in the order read, without spaces.
pub fn put_trn(room: &mut Room, card: &[u8])
    ensures { Puts room.old (trn_text card.now) room.new }
{
    room.put_bytes(b"TRN");
    if card::last_field(card) < 2 {
        room.put_byte(b'.');
        return;
    }
    room.put_byte(b',');
    put_third(room, parts::raw_field(card, 2));
    put_transfers(room, card);
}
