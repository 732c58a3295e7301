// Text as bytes: classes of bytes, numbers read, and pieces of text put into lent room.
#![tactic(auto)]

pub mod room;

ghost use Rattle.std.specs.Prelude.{◌≡◌, [], ◌∷◌, get_or};
ghost use Rattle.text.specs.Class.{is_digit, is_letter, is_alnum};
ghost use Rattle.text.specs.Room.{Written};
ghost use Rattle.text.specs.Reading.{two_digits_of, digits_from, decimal_of};
ghost use Rattle.text.specs.Writing.{two_text, decimal_text};

// 0 to 9.
#[tactic(auto, unfolding(crate::specs::Class::is_digit))]
pub fn is_digit(b: u8) -> bool
    ensures { result ≡ is_digit b }
{
    b.is_ascii_digit()
}

// A to Z.
#[tactic(auto, unfolding(crate::specs::Class::is_letter))]
pub fn is_letter(b: u8) -> bool
    ensures { result ≡ is_letter b }
{
    b.is_ascii_uppercase()
}

// A letter or a digit.
#[tactic(auto, unfolding(crate::specs::Class::is_alnum))]
pub fn is_alnum(b: u8) -> bool
    ensures { result ≡ is_alnum b }
{
    is_letter(b) || is_digit(b)
}

// The byte at an index of a text, 0 past its end.
pub fn byte_at(s: &[u8], at: usize) -> u8
    ensures { result ≡ get_or s.now at 0 }
{
    s.get(at).copied().unwrap_or(0)
}

// The number that exactly two digits write at the start of a text, and how many bytes they take.
#[tactic(auto, unfolding(crate::specs::Reading::two_digits_of))]
pub fn two_digits(s: &[u8]) -> Option<(u32, usize)>
    ensures { result ≡ two_digits_of s.now }
{
    let tens = byte_at(s, 0);
    let ones = byte_at(s, 1);
    if is_digit(tens) && is_digit(ones) {
        Some(((tens - b'0') as u32 * 10 + (ones - b'0') as u32, 2))
    } else {
        None
    }
}

// The number that a text's leading digits write, at most seven of them, and how many they are.
fn digits(s: &[u8]) -> Option<(u32, usize)>
    ensures { result ≡ digits_from 7 0 0 s.now }
{
    let mut value: u32 = 0;
    for (i, b) in s.iter().enumerate() {
        if !is_digit(*b) {
            return Some((value, i));
        }
        if i == 7 {
            return None;
        }
        value = value * 10 + (*b - b'0') as u32;
    }
    Some((value, s.len()))
}

// The number without leading zero, of at most seven digits, at the start of a text, and how many bytes it takes.
#[tactic(auto, unfolding(crate::specs::Reading::decimal_of))]
pub fn decimal(s: &[u8]) -> Option<(u32, usize)>
    ensures { result ≡ decimal_of s.now }
{
    let first = byte_at(s, 0);
    if !is_digit(first) {
        return None;
    }
    if first == b'0' {
        if is_digit(byte_at(s, 1)) {
            return None;
        }
        return Some((0, 1));
    }
    digits(s)
}

// Puts a byte at an index of the room and answers the next; where the room is full, nothing.
pub fn put_byte(room: &mut [u8], at: usize, b: u8) -> usize
    ensures { Written room.old at (b ∷ []) room.new result }
{
    if at < room.len() {
        room[at] = b;
        return at + 1;
    }
    at
}

// Puts the bytes of a piece, one after the other.
pub fn put_bytes(room: &mut [u8], at: usize, piece: &[u8]) -> usize
    ensures { Written room.old at piece.now room.new result }
{
    let mut next = at;
    for b in piece {
        next = put_byte(room, next, *b);
    }
    next
}

// Puts a number as two digits.
pub fn put_two(room: &mut [u8], at: usize, n: u8) -> usize
    ensures { Written room.old at (two_text n) room.new result }
{
    let next = put_byte(room, at, b'0' + n / 10);
    put_byte(room, next, b'0' + n % 10)
}

// Puts a number in decimal, without leading zero.
pub fn put_decimal(room: &mut [u8], at: usize, n: u64) -> usize
    ensures { Written room.old at (decimal_text n) room.new result }
{
    if n < 10 {
        return put_byte(room, at, b'0' + n as u8);
    }
    let next = put_decimal(room, at, n / 10);
    put_byte(room, next, b'0' + (n % 10) as u8)
}
