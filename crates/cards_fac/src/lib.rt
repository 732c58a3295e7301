// The FAC card: its entries, what they ask for, and the card's errors.
#![tactic(auto)]

ghost use Rattle.std.specs.Prelude.{◌≡◌, ◌≤◌, ◌<◌, get_or, drop, set, position};
ghost use Rattle.words.specs.Words.{same};
ghost use Rattle.cards_fields.specs.Fields.{field, fields};
ghost use Rattle.cards_fac.specs.Fac.{codes, last_code, channel_good, most, number_good, slot, slots, code_answer, core_error};
ghost use Rattle.cards_fac.specs.Fac.{nothing, asks_of, EntryRead, asked_of, fac_of};

use cards_fields::card;
use cards_request::{CardError, Facilities};
use numbers::limits;
use words::Class;

// The codes in the order in which entries are written: core, drum, and the kinds that have units in their order.
pub const CODES: [[u8; 2]; 3 + numbers::UNIT_KINDS] = [
    [b'I', b'B'], // 0
    [b'D', b'B'], // 1
    [b'M', b'D'], // 2
    [b'M', b'A'], // 3
    [b'M', b'T'], // 4
    [b'P', b'R'], // 5
    [b'M', b'C'], // 6
    [b'C', b'R'], // 7
    [b'P', b'T'], // 8
];

// The index of the last code.
pub const LAST_CODE: usize = 2 + numbers::UNIT_KINDS;

// How many numbers a FAC card can give: IB, DB, MD and the counts of units.
pub const SLOTS: usize = 3 + cards_request::COUNTS;

// An entry of a FAC card: the slot that it fills and its number.
#[derive(Clone, Copy, Debug, PartialEq, Eq)]
pub struct Entry {
    pub slot: usize,
    pub number: u32,
}

// The index of a code, if it is known.
fn code_index(t: &[u8]) -> Option<usize>
    ensures { result ≡ position (λ code. same code t.now) CODES }
{
    CODES.iter().position(|code| words::is_same(code, t))
}

// Whether a text is a good logical channel for a code.
fn is_channel(code: usize, t: &[u8]) -> bool
    ensures { result ≡ channel_good code t.now }
{
    if code < 3 {
        return t.len() == 0;
    }
    t.len() <= 2 && words::all_of(Class::Digit, t) && words::number(t) <= 15
}

// How many digits an entry's number may have.
fn most_digits(code: usize) -> usize
    ensures { (result ≡ most code) × (result ≤ 6) }
{
    if code == 2 { 6 } else { 2 }
}

// Whether a text is a good number for a code.
fn is_number(code: usize, t: &[u8]) -> bool
    ensures { result ≡ number_good code t.now }
{
    t.len() <= most_digits(code) && words::all_of(Class::Digit, t) && 1 <= words::number(t)
}

// Where a request holds what an entry asks for.
fn slot_of(code: usize, channel: u32) -> usize
    requires { (code ≤ last_code) × (channel ≤ 15) }
    ensures { (result ≡ slot code channel) × (result < slots) }
{
    if code < 3 {
        return code;
    }
    3 + (code - 3) * 16 + channel as usize
}

// The index of an entry's code, or what is wrong with it.
fn code_of(t: &[u8]) -> Result<usize, CardError>
    ensures { result ≡ code_answer t.now }
{
    let n = words::leading_of(Class::Letter, t);
    if 2 < n {
        return Err(CardError::LongCode);
    }
    code_index(&t[..n]).ok_or(CardError::UnknownCode)
}

// The entry that a text writes: a known code, a slash, a good channel before it and a good number behind it.
fn entry_of(t: &[u8]) -> Result<Entry, CardError>
    ensures { EntryRead t.now result }
{
    let code = code_of(t)?;
    let n = words::leading_of(Class::Letter, t);
    let at = n + words::until(&t[n..], b'/');
    if t.len() <= at || !is_channel(code, &t[n..at]) || !is_number(code, &t[at + 1..]) {
        return Err(CardError::WrongEntry);
    }
    Ok(Entry {
        slot: slot_of(code, words::number(&t[n..at])),
        number: words::number(&t[at + 1..]),
    })
}

// The entry in a field of a card; one that was not gathered whole has an error.
fn entry_at(card: &[u8], k: usize) -> Result<Entry, CardError>
    ensures { EntryRead (field card.now k) result }
{
    let f = card::field_at(card, k);
    let n = f.len;
    let bytes = f.bytes;
    if n <= 12 {
        return entry_of(&bytes[..n]);
    }
    code_of(&bytes)?;
    Err(CardError::WrongEntry)
}

// What is asked for at a slot, 0 past the last.
pub fn number_at(f: Facilities, slot: usize) -> u32
    ensures { result ≡ get_or (asks_of f) slot 0 }
{
    match slot {
        0 => f.ib as u32,
        1 => f.db as u32,
        2 => f.md,
        _ => text::byte_at(&f.units, slot - 3) as u32,
    }
}

// The same facilities with a number at a slot.
fn with_number(f: Facilities, slot: usize, n: u32) -> Facilities
    requires { (slot < slots) × ((slot ≡ 2 → ⊥) → n < 100) }
    ensures { asks_of result ≡ set (asks_of f) slot n }
{
    let mut g = f;
    match slot {
        0 => g.ib = n as u8,
        1 => g.db = n as u8,
        2 => g.md = n,
        _ => g.units[slot - 3] = n as u8,
    }
    g
}

// What the entries of a card ask for, or the first error among them.
fn facilities(card: &[u8]) -> Result<Facilities, CardError>
    ensures { result ≡ asked_of nothing (drop 2 (fields card.now)) }
{
    let mut asks = cards_request::no_facilities();
    for k in 2..=card::last_field(card) {
        let e = entry_at(card, k)?;
        if 0 < number_at(asks, e.slot) {
            return Err(CardError::WrongEntry);
        }
        asks = with_number(asks, e.slot, e.number);
    }
    Ok(asks)
}

// What is wrong with the core that is asked for.
pub fn core_error(f: Facilities) -> Result<(), CardError>
    ensures { result ≡ core_error (asks_of f) }
{
    if limits::MOST_BLOCKS < f.ib || limits::MOST_BLOCKS - f.ib < f.db {
        return Err(CardError::TooMuchCore);
    }
    if f.ib == 0 {
        return Err(CardError::NoIb);
    }
    Ok(())
}

// The FAC card by itself: its first error, or what it asks for.
pub fn read_fac(card: &[u8]) -> Result<Facilities, CardError>
    ensures { result ≡ fac_of card.now }
{
    if card::is_malformed(card) {
        return Err(CardError::FacMalformed);
    }
    let f = facilities(card)?;
    core_error(f)?;
    Ok(f)
}
