// Whether a request is one that a card can hold.
ghost use Rattle.std.specs.Prelude.{◌≡◌, false, [], ◌<◌, get_or};
ghost use Rattle.cards_request.specs.Errors.{good};
ghost use Rattle.cards_pty.specs.Pty.{rule_at, field_error, fields_error};
ghost use Rattle.cards_fac.specs.Fac.{asks_of};
ghost use Rattle.cards_writing.specs.Writing.{pty_fields, formed_from, limit, numbers_fit, names_formed, ranges_good, takes};

use crate::put;
use cards_request::{Facilities, Request};
use numbers::limits;
use text::room::Room;

// Whether a name has blanks only behind it.
fn is_formed(name: &[u8]) -> bool
    ensures { result ≡ formed_from false name.now }
{
    let mut over = false;
    for b in name {
        if over && *b != b' ' {
            return false;
        }
        over = *b == b' ';
    }
    true
}

// Whether each name has blanks only behind it.
fn are_formed(r: Request) -> bool
    ensures { result ≡ names_formed r }
{
    is_formed(&r.id) && is_formed(&r.program) && is_formed(&r.medium) && is_formed(&r.library)
}

// Whether the text of a field is right; it is put into an array one byte longer than any may be, so that a longer one
// shows.
fn is_field(r: Request, n: usize, k: usize) -> bool
    ensures { result ≡ good (field_error k (rule_at k) (get_or (pty_fields n r) k [])) }
{
    let mut text = [0u8; 13];
    let mut room = Room {
        bytes: &mut text,
        at: 0,
    };
    put::put_field(&mut room, r, n, k);
    let len = room.at;
    cards_request::is_good(cards_pty::field_error(k, &room.bytes[..len]))
}

// Whether the text of each field is right.
fn are_fields(r: Request, n: usize) -> bool
    ensures { result ≡ good (fields_error (pty_fields n r)) }
{
    for k in 0..14 {
        if !is_field(r, n, k) {
            return false;
        }
    }
    true
}

// What a number must stay below.
fn limit_at(k: usize) -> u32
    ensures { result ≡ limit k }
{
    if k == 2 {
        return 1000000;
    }
    100
}

// Whether each number is one that a card can hold.
fn are_numbers(f: Facilities) -> bool
    ensures { result ≡ numbers_fit 0 (asks_of f) }
{
    for k in 0..cards_fac::SLOTS {
        if limit_at(k) <= cards_fac::number_at(f, k) {
            return false;
        }
    }
    true
}

// Whether the priority's parts and the minutes are ones that a card can hold.
fn are_ranges(r: Request) -> bool
    ensures { result ≡ ranges_good r }
{
    text::is_letter(r.letter)
        && r.sequence <= limits::LAST_SEQUENCE
        && r.precedence <= limits::LAST_PRECEDENCE
        && r.minutes < 10000
}

// Whether the writer takes a request of n cards.
#[tactic(auto, unfolding(crate::specs::Writing::takes))]
pub fn is_taken(r: Request, n: usize) -> bool
    ensures { result ≡ takes n r }
{
    let f = r.facilities;
    are_formed(r)
        && are_ranges(r)
        && are_fields(r, n)
        && are_numbers(f)
        && cards_request::is_good(cards_fac::core_error(f))
}
