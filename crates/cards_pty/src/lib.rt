// The PTY card: each field's length and content, the priority, and the card's errors.
#![tactic(auto)]

ghost use Rattle.std.specs.Prelude.{◌≡◌, ◌≤◌, ◌<◌, length};
ghost use Rattle.cards_fields.specs.Fields.{field, fields};
ghost use Rattle.cards_pty.specs.Pty.{program_name, precedence, last_of_all, ranked, priority_of, rule_at};
ghost use Rattle.cards_pty.specs.Pty.{length_error, content_error, field_error, fields_error, pty_error};

use cards_fields::card;
use cards_request::CardError;
use numbers::limits;
use words::Class;

// A job's priority.
#[derive(Clone, Copy, Debug, PartialEq, Eq)]
pub struct Priority {
    pub sequence: u8,
    pub letter: u8,
    pub precedence: u8,
}

// The table's numbers: for each field its least and most length.
const LENGTHS: [(usize, usize); 14] = [
    (1, 6),
    (3, 3),
    (1, 2),
    (0, 1),
    (1, 12),
    (0, 1),
    (0, 1),
    (1, 6),
    (1, 1),
    (1, 5),
    (1, 1),
    (1, 4),
    (0, 1),
    (0, 6),
];

// Whether a text is a program's name: letters, digits or hyphens, no hyphen first.
fn is_program_name(t: &[u8]) -> bool
    ensures { result ≡ program_name t.now }
{
    if text::byte_at(t, 0) == b'-' {
        return false;
    }
    words::all_of(Class::Hyphened, t)
}

// A priority of wrong content, where one has to be held.
pub const NO_PRIORITY: Priority = Priority {
    sequence: 0,
    letter: 0,
    precedence: 0,
};

// The last sequence.
const LAST_SEQUENCE: u32 = limits::LAST_SEQUENCE as u32;

// The last precedence.
const LAST_PRECEDENCE: u32 = limits::LAST_PRECEDENCE as u32;

// The precedence that a text of at most two bytes writes, the last if it is empty.
fn precedence_of(p: &[u8]) -> u32
    requires { length p.now ≤ 2 }
    ensures { result ≡ precedence p.now }
{
    if p.len() == 0 {
        return LAST_PRECEDENCE;
    }
    words::number(p)
}

// Whether a letter and a precedence are those that no job may have.
fn is_last(letter: u8, n: u32) -> bool
    ensures { result ≡ last_of_all letter n }
{
    letter == b'Z' && n == LAST_PRECEDENCE
}

// The priority of a letter and a precedence behind a sequence.
fn rank(sequence: u8, letter: u8, p: &[u8]) -> Option<Priority>
    ensures { result ≡ ranked sequence letter p.now }
{
    if !text::is_letter(letter) || 2 < p.len() || !words::all_of(Class::Digit, p) {
        return None;
    }
    let n = precedence_of(p);
    if LAST_PRECEDENCE < n || is_last(letter, n) {
        return None;
    }
    Some(Priority {
        sequence,
        letter,
        precedence: n as u8,
    })
}

// A priority: an optional sequence of two digits, a letter, an optional precedence.
pub fn priority_of(t: &[u8]) -> Option<Priority>
    ensures { result ≡ priority_of t.now }
{
    let first = text::byte_at(t, 0);
    if text::is_letter(first) {
        return rank(0, first, &t[1..]);
    }
    if t.len() < 3 || !words::all_of(Class::Digit, &t[..2]) {
        return None;
    }
    let sequence = words::number(&t[..2]);
    if sequence < 1 || LAST_SEQUENCE < sequence {
        return None;
    }
    rank(sequence as u8, t[2], &t[3..])
}

// Whether a field's content is right.
#[tactic(auto, unfolding(crate::specs::Pty::rules))]
fn is_right(k: usize, t: &[u8]) -> bool
    requires { k < 14 }
    ensures { result ≡ (rule_at k).content t.now }
{
    match k {
        0 => words::all_of(Class::Alnum, t),
        1 => words::is_same(b"PTY", t),
        2 => words::all_of(Class::Digit, t),
        3 => words::all_in(b"S", t),
        4 => is_program_name(t),
        5 => words::all_in(b"I", t),
        6 => words::all_in(b"TAC", t),
        7 => words::all_of(Class::Alnum, t),
        8 => words::all_in(b"SP", t),
        9 => priority_of(t).is_some(),
        10 => words::all_in(b"PC", t),
        11 => words::all_of(Class::Digit, t),
        12 => words::all_in(b"TACZ", t),
        _ => words::all_of(Class::Alnum, t),
    }
}

// The error of a wrong length.
fn length_error(k: usize) -> CardError
    ensures { result ≡ length_error k }
{
    match k {
        0 => CardError::IdLength,
        3 => CardError::WrongRush,
        _ => CardError::WrongLength,
    }
}

// The error of wrong content.
fn content_error(k: usize) -> CardError
    ensures { result ≡ content_error k }
{
    if k == 3 {
        CardError::WrongRush
    } else {
        CardError::WrongContent
    }
}

// What is wrong with the text of a field: its length first, then its content. Past the fourteenth a field has to be
// empty.
pub fn field_error(k: usize, t: &[u8]) -> Result<(), CardError>
    ensures { result ≡ field_error k (rule_at k) t.now }
{
    if 13 < k {
        if t.len() == 0 {
            return Ok(());
        }
        return Err(length_error(k));
    }
    let (least, most) = LENGTHS[k];
    if t.len() < least || most < t.len() {
        return Err(length_error(k));
    }
    if is_right(k, t) {
        return Ok(());
    }
    Err(content_error(k))
}

// The same of a card's field; one that was not gathered whole is longer than any may be.
fn error_at(card: &[u8], k: usize) -> Result<(), CardError>
    requires { k < 14 }
    ensures { result ≡ field_error k (rule_at k) (field card.now k) }
{
    let f = card::field_at(card, k);
    let n = f.len;
    if 12 < n {
        return Err(length_error(k));
    }
    let bytes = f.bytes;
    field_error(k, &bytes[..n])
}

// The first error of a card's fields, left to right.
fn fields_error(card: &[u8]) -> Result<(), CardError>
    ensures { result ≡ fields_error (fields card.now) }
{
    for k in 0..14 {
        error_at(card, k)?;
    }
    Ok(())
}

// The errors of the PTY card by itself.
pub fn pty_error(card: &[u8]) -> Result<(), CardError>
    ensures { result ≡ pty_error card.now }
{
    if !card::field_is(card, 1, b"PTY") {
        return Err(CardError::NotPty);
    }
    if card::is_malformed(card) || 13 < card::last_field(card) {
        return Err(CardError::PtyMalformed);
    }
    fields_error(card)
}
