// The pieces of the PTY and the FAC card, each put behind the one before it.
ghost use Rattle.std.specs.Prelude.{◌≡◌, [], ◌∷◌, eqb, length, get_or, drop};
ghost use Rattle.text.specs.Room.{Puts};
ghost use Rattle.cards_fields.specs.Fields.{tail_text};
ghost use Rattle.cards_fac.specs.Fac.{codes, asks_of};
ghost use Rattle.cards_writing.specs.Writing.{priority_text, mark_text, pty_fields, trimmed, pty_text};
ghost use Rattle.cards_writing.specs.Writing.{code_at, channel_at, entry_text, entry_texts, fac_text};

use cards_fields::parts;
use cards_request::{Facilities, Request};
use text::room::Room;

// Puts a mark, nothing for a blank.
fn put_mark(room: &mut Room, mark: u8)
    ensures { Puts room.old (mark_text mark) room.new }
{
    if mark != b' ' {
        room.put_byte(mark);
    }
}

// Puts the sequence, where there is one, the letter and the precedence.
pub fn put_priority(room: &mut Room, r: Request)
    ensures { Puts room.old (priority_text r) room.new }
{
    let sequence = r.sequence;
    if sequence != 0 {
        room.put_two(sequence);
    }
    room.put_byte(r.letter);
    room.put_two(r.precedence);
}

// Puts the field at an index of the PTY card of a request of n cards, nothing past the last.
pub(crate) fn put_field(room: &mut Room, r: Request, n: usize, k: usize)
    ensures { Puts room.old (get_or (pty_fields n r) k []) room.new }
{
    let id = r.id;
    let program = r.program;
    let medium = r.medium;
    let library = r.library;
    match k {
        0 => parts::put_name(room, &id),
        1 => room.put_bytes(b"PTY"),
        2 => room.put_decimal(n as u64),
        3 => put_mark(room, r.rush),
        4 => parts::put_name(room, &program),
        5 => put_mark(room, r.immediate),
        6 => put_mark(room, r.device),
        7 => parts::put_name(room, &medium),
        8 => put_mark(room, r.mode),
        9 => put_priority(room, r),
        10 => put_mark(room, r.mix),
        11 => room.put_decimal(r.minutes as u64),
        12 => put_mark(room, r.store),
        13 => parts::put_name(room, &library),
        _ => {}
    }
}

// Whether a field is empty: nothing of it is put.
fn is_empty(r: Request, n: usize, k: usize) -> bool
    ensures { result ≡ eqb (length (get_or (pty_fields n r) k [])) 0 }
{
    let mut text = [0u8; 1];
    let mut room = Room {
        bytes: &mut text,
        at: 0,
    };
    put_field(&mut room, r, n, k);
    room.at == 0
}

// How many fields are written: all but the empty ones behind the estimated minutes, which are never empty.
fn field_count(r: Request, n: usize) -> usize
    ensures { result ≡ length (trimmed (pty_fields n r)) }
{
    if !is_empty(r, n, 13) {
        return 14;
    }
    if !is_empty(r, n, 12) {
        return 13;
    }
    12
}

// Puts what follows the PTY card's first field.
fn put_fields(room: &mut Room, r: Request, n: usize)
    ensures { Puts room.old (tail_text (drop 1 (trimmed (pty_fields n r)))) room.new }
{
    let count = field_count(r, n);
    for k in 1..count {
        room.put_byte(b',');
        put_field(room, r, n, k);
    }
    room.put_byte(b'.');
}

// Puts the PTY card of a request of n cards.
pub fn put_pty(room: &mut Room, r: Request, n: usize)
    ensures { Puts room.old (pty_text n r) room.new }
{
    put_field(room, r, n, 0);
    put_fields(room, r, n);
}

// Puts the code with an index, nothing past the last.
fn put_code(room: &mut Room, code: usize)
    ensures { Puts room.old (get_or codes code []) room.new }
{
    if code <= cards_fac::LAST_CODE {
        room.put_bytes(&cards_fac::CODES[code]);
    }
}

// The index of a slot's code.
fn code_at(k: usize) -> usize
    ensures { result ≡ code_at k }
{
    if k < 3 {
        return k;
    }
    3 + (k - 3) / 16
}

// The logical channel of a slot.
fn channel_at(k: usize) -> usize
    ensures { result ≡ channel_at k }
{
    if k < 3 {
        return 0;
    }
    (k - 3) % 16
}

// Puts an entry: code, logical channel unless it is 0, slash, number.
fn put_entry(room: &mut Room, k: usize, n: u32)
    ensures { Puts room.old (entry_text k n) room.new }
{
    put_code(room, code_at(k));
    let channel = channel_at(k);
    if channel != 0 {
        room.put_decimal(channel as u64);
    }
    room.put_byte(b'/');
    room.put_decimal(n as u64);
}

// Puts what follows the word FAC.
fn put_entries(room: &mut Room, f: Facilities)
    ensures { Puts room.old (tail_text (entry_texts 0 (asks_of f))) room.new }
{
    for slot in 0..cards_fac::SLOTS {
        let n = cards_fac::number_at(f, slot);
        if n != 0 {
            room.put_byte(b',');
            put_entry(room, slot, n);
        }
    }
    room.put_byte(b'.');
}

// Puts the FAC card.
pub fn put_fac(room: &mut Room, r: Request)
    ensures { Puts room.old (fac_text r) room.new }
{
    let id = r.id;
    parts::put_name(room, &id);
    room.put_bytes(b",FAC");
    put_entries(room, r.facilities);
}
