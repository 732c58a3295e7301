// One card: its fields, read loosely, and whether it is malformed.
ghost use Rattle.std.specs.Prelude.{◌≡◌, ◌+◌, ◌<◌, ◌^◌, length};
ghost use Rattle.words.specs.Words.{every};
ghost use Rattle.cards_fields.specs.Fields.{field, fields, field_is, field_of, card_byte, malformed};
ghost use Rattle.cards_fields.specs.FieldBytes.{pushed};

use crate::Field;
use numbers::limits;

// A field with one more byte; a space is dropped.
pub(crate) fn with_byte(f: Field, b: u8) -> Field
    requires { f.len + 1 < 2 ^ 64 }
    ensures { result ≡ pushed f b }
{
    if b == b' ' {
        return f;
    }
    let mut bytes = f.bytes;
    if f.len < 12 {
        bytes[f.len] = b;
    }
    Field {
        bytes,
        len: f.len + 1,
    }
}

// The field at an index of a card, spaces dropped, the first at 0; a missing field is empty. One loop, which ends at the
// comma behind the field or at the period, so that nothing behind the field is looked at.
pub fn field_at(card: &[u8], k: usize) -> Field
    ensures { result ≡ field_of (field card.now k) }
{
    let mut f = Field {
        bytes: [b' '; 12],
        len: 0,
    };
    let mut left = k;
    for b in card {
        if *b == b'.' {
            return f;
        }
        if *b == b',' {
            if left == 0 {
                return f;
            }
            left -= 1;
        } else if left == 0 {
            f = with_byte(f, *b);
        }
    }
    f
}

// The index of a card's last field, the first at 0: as many as it has commas before its first period.
pub fn last_field(card: &[u8]) -> usize
    ensures { result + 1 ≡ length (fields card.now) }
{
    let mut n: usize = 0;
    for b in card {
        if *b == b'.' {
            return n;
        }
        if *b == b',' {
            n += 1;
        }
    }
    n
}

// Whether a card's field is a word of at most twelve bytes.
pub fn field_is(card: &[u8], k: usize, word: &[u8]) -> bool
    ensures { result ≡ field_is card.now k word.now }
{
    if 12 < word.len() {
        return false;
    }
    let f = field_at(card, k);
    f.len <= 12 && words::is_same(&f.bytes[..f.len], word)
}

// Whether a byte may stand on a card.
#[tactic(auto, unfolding(crate::specs::Fields::card_byte))]
pub fn is_card_byte(b: u8) -> bool
    ensures { result ≡ card_byte b }
{
    text::is_alnum(b) || words::is_in(b" -/*=:,.", b)
}

// Whether each byte of a text may stand on a card.
pub fn are_card_bytes(s: &[u8]) -> bool
    ensures { result ≡ every card_byte s.now }
{
    s.iter().all(|b| is_card_byte(*b))
}

// Whether a card is malformed: too long, another character, no period, or more than spaces after it. Its length comes
// first, so that a long card is not looked at.
pub fn is_malformed(card: &[u8]) -> bool
    ensures { result ≡ malformed card.now }
{
    if limits::CARD_LENGTH < card.len() {
        return true;
    }
    let end = words::until(card, b'.');
    if end == card.len() {
        return true;
    }
    !are_card_bytes(card) || !words::all_in(b" ", &card[end + 1..])
}
