// A group of cards: what it asks for, or its first error.
#![tactic(auto)]

ghost use Rattle.std.specs.Prelude.{◌≡◌, Ok, ◌||◌, ◌≤◌, length};
ghost use Rattle.numbers.specs.Elements.{any};
ghost use Rattle.words.specs.Words.{same, value};
ghost use Rattle.cards_fields.specs.Fields.{field, fields, padded};
ghost use Rattle.cards_fields.specs.Deck.{cards_of};
ghost use Rattle.cards_pty.specs.Pty.{held_priority, fields_error};
ghost use Rattle.cards_fac.specs.Fac.{asks_of};
ghost use Rattle.cards_group.specs.Steps.{front_error, order_error, reading_of};
ghost use Rattle.cards_group.specs.Group.{other_id, mark, request_of, answer, read_cards, read_group, read_full};

use cards_fields::{card, deck};
use cards_pty::Priority;
use cards_request::{CardError, Facilities, FullRequest, Request};
use numbers::limits;

// What reading a group answers: the request, or blanks beside an error.
// Stays: `read_group` and `read_full` of specs/Group promise the blanks, and demands' theorems name the two parts.
#[derive(Clone, Copy)]
pub struct Reading {
    pub verdict: Result<(), CardError>,
    pub request: Request,
}

// The same with the further cards.
#[derive(Clone, Copy)]
pub struct FullReading {
    pub verdict: Result<(), CardError>,
    pub full: FullRequest,
}

// The byte of a field that has at most one, or a blank.
fn mark_at(card: &[u8], k: usize) -> u8
    ensures { result ≡ mark (field card.now k) }
{
    let f = card::field_at(card, k);
    let bytes = f.bytes;
    bytes[0]
}

// A name of at most six bytes, padded.
fn name_at(card: &[u8], k: usize) -> [u8; 6]
    ensures { result ≡ padded 6 (field card.now k) }
{
    let f = card::field_at(card, k);
    let b = f.bytes;
    [b[0], b[1], b[2], b[3], b[4], b[5]]
}

// A program's name of at most twelve bytes, padded.
fn program_at(card: &[u8], k: usize) -> [u8; 12]
    ensures { result ≡ padded 12 (field card.now k) }
{
    let f = card::field_at(card, k);
    f.bytes
}

// The number in a field of at most six digits.
fn number_at(card: &[u8], k: usize) -> u32
    requires { length (field card.now k) ≤ 6 }
    ensures { result ≡ value (field card.now k) }
{
    let f = card::field_at(card, k);
    let n = f.len;
    let bytes = f.bytes;
    words::number(&bytes[..n])
}

// The priority on a card, in its tenth field.
fn priority_at(card: &[u8]) -> Priority
    requires { length (field card.now 9) ≤ 12 }
    ensures { result ≡ held_priority (field card.now 9) }
{
    let f = card::field_at(card, 9);
    let n = f.len;
    let bytes = f.bytes;
    cards_pty::priority_of(&bytes[..n]).unwrap_or(cards_pty::NO_PRIORITY)
}

// The request of a good PTY card and of what is asked for.
fn request(card: &[u8], facilities: Facilities) -> Request
    requires { fields_error (fields card.now) ≡ Ok tt }
    ensures { result ≡ request_of card.now (asks_of facilities) }
{
    let p = priority_at(card);
    let minutes = number_at(card, 11);
    Request {
        id: name_at(card, 0),
        rush: mark_at(card, 3),
        program: program_at(card, 4),
        immediate: mark_at(card, 5),
        device: mark_at(card, 6),
        medium: name_at(card, 7),
        mode: mark_at(card, 8),
        sequence: p.sequence,
        letter: p.letter,
        precedence: p.precedence,
        mix: mark_at(card, 10),
        minutes,
        store: mark_at(card, 12),
        library: name_at(card, 13),
        facilities,
    }
}

// The ID of a good PTY card and those behind it: whether one of them differs.
fn is_other_id(pty: &[u8], fac: &[u8], rest: &[u8]) -> bool
    requires { length (field pty.now 0) ≤ 12 }
    ensures { result ≡ (other_id pty.now fac.now || any (other_id pty.now) (cards_of rest.now)) }
{
    let f = card::field_at(pty, 0);
    let n = f.len;
    let bytes = f.bytes;
    if card::field_is(fac, 0, &bytes[..n]) {
        return cards_further::is_other_id(rest, &bytes[..n]);
    }
    true
}

// The errors of a group of n cards up to its second card's type.
fn front_error(n: usize, pty: &[u8], fac: &[u8]) -> Result<(), CardError>
    ensures { result ≡ front_error n pty.now fac.now }
{
    cards_pty::pty_error(pty)?;
    if limits::MOST_CARDS < n {
        return Err(CardError::WrongCount);
    }
    if number_at(pty, 2) as usize != n {
        return Err(CardError::WrongCount);
    }
    if card::field_is(fac, 1, b"FAC") {
        return Ok(());
    }
    Err(CardError::NoFac)
}

// The errors behind them that go by number over the whole group.
fn order_error(pty: &[u8], fac: &[u8], rest: &[u8]) -> Result<(), CardError>
    requires { length (field pty.now 0) ≤ 12 }
    ensures { result ≡ order_error pty.now fac.now (cards_of rest.now) }
{
    cards_further::types_error(rest)?;
    if is_other_id(pty, fac, rest) {
        return Err(CardError::OtherId);
    }
    cards_further::together_error(rest)
}

// What a group of n cards asks for, or its first error: PTY, FAC and the rest; a card that is absent is empty.
fn read_cards(n: usize, pty: &[u8], fac: &[u8], rest: &[u8]) -> Result<Request, CardError>
    ensures { reading_of result ≡ read_cards n pty.now fac.now (cards_of rest.now) }
{
    front_error(n, pty, fac)?;
    order_error(pty, fac, rest)?;
    let facilities = cards_fac::read_fac(fac)?;
    cards_further::contents_error(rest)?;
    Ok(request(pty, facilities))
}

// What a group of cards, as a part of its deck, asks for, or its first error. The further cards are looked at and not
// held.
pub fn read_group(group: &[u8]) -> Reading
    ensures { result ≡ read_group (cards_of group.now) }
{
    let n = deck::card_count(group);
    let pty = deck::card_at(group, 0);
    let fac = deck::card_at(group, 1);
    let rest = deck::behind(group, 2);
    match read_cards(n, pty, fac, rest) {
        Ok(request) => Reading {
            verdict: Ok(()),
            request,
        },
        Err(error) => Reading {
            verdict: Err(error),
            request: cards_request::no_request(),
        },
    }
}

// The same with its further cards.
pub fn read_full(group: &[u8]) -> FullReading
    ensures { result ≡ read_full (cards_of group.now) }
{
    let reading = read_group(group);
    let verdict = reading.verdict;
    let request = reading.request;
    if cards_request::is_good(verdict) {
        let further = cards_further::held(deck::behind(group, 2));
        return FullReading {
            verdict,
            full: FullRequest { request, further },
        };
    }
    let further = cards_request::no_further();
    FullReading {
        verdict,
        full: FullRequest { request, further },
    }
}
