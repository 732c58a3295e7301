// A deck's cards and groups, each looked at as a part of the deck.
ghost use Rattle.std.specs.Prelude.{◌≡◌, [], ◌≤◌, length, get_or, take, drop};
ghost use Rattle.words.specs.Lines.{line_of};
ghost use Rattle.cards_fields.specs.Deck.{cards_of, is_termination, size, deck_end, opens, group_size};

use crate::card;
use numbers::{Refusal, limits};

// The length of the first card of what is left of a deck, its LF not counted; the whole length where no LF is left.
pub fn card_len(rest: &[u8]) -> usize
    ensures { result ≡ length (line_of rest.now) }
{
    words::until(rest, b'\n')
}

// How many cards a text has.
pub fn card_count(text: &[u8]) -> usize
    ensures { result ≡ length (cards_of text.now) }
{
    let mut n: usize = 0;
    let mut at: usize = 0;
    // Stays: by document 01 the next card starts where the last ended, as the part `&text[at..]`.
    while at < text.len() {
        let len = card_len(&text[at..]);
        if len == text.len() - at {
            return n;
        }
        at = at + len + 1;
        n += 1;
    }
    n
}

// The card at an index of a text, the first at 0, as a part of it; empty where there is none.
pub fn card_at(text: &[u8], k: usize) -> &[u8]
    ensures { result.now ≡ get_or (cards_of text.now) k [] }
{
    let mut left = k;
    let mut at: usize = 0;
    // Stays: by document 01 the next card starts where the last ended, as the part `&text[at..]`.
    while at < text.len() {
        let len = card_len(&text[at..]);
        let end = at + len;
        if end == text.len() {
            return &text[0..0];
        }
        if left == 0 {
            return &text[at..end];
        }
        left -= 1;
        at = end + 1;
    }
    &text[0..0]
}

// What is left of a text behind its first k cards, or behind all where there are fewer, as a part of it.
pub fn behind(text: &[u8], k: usize) -> &[u8]
    ensures { result.now ≡ drop (size (take k (cards_of text.now))) text.now }
{
    let mut left = k;
    let mut at: usize = 0;
    // Stays: by document 01 the next card starts where the last ended, as the part `&text[at..]`.
    while at < text.len() {
        if left == 0 {
            return &text[at..];
        }
        let len = card_len(&text[at..]);
        let end = at + len;
        if end == text.len() {
            return &text[at..];
        }
        left -= 1;
        at = end + 1;
    }
    &text[at..]
}

// Whether a card is the termination card.
pub fn is_termination(card: &[u8]) -> bool
    ensures { result ≡ is_termination card.now }
{
    words::is_same(
        card,
        b")))))))) +++++++++++++                                                  ))))))))",
    )
}

// Where the termination card of a deck starts, or why the deck is refused.
pub fn deck_end(deck: &[u8]) -> Result<usize, Refusal>
    ensures { result ≡ deck_end deck.now }
{
    if limits::DECK_BYTES < deck.len() {
        return Err(Refusal::BadDeck);
    }
    let mut at: usize = 0;
    // Stays: by document 01 the next card starts where the last ended, as the part `&deck[at..]`.
    while at < deck.len() {
        let len = card_len(&deck[at..]);
        let end = at + len;
        if end == deck.len() {
            return Err(Refusal::BadDeck);
        }
        if is_termination(&deck[at..end]) {
            return Ok(at);
        }
        at = end + 1;
    }
    Err(Refusal::BadDeck)
}

// Whether the first card of what is left opens a group, or there is none.
fn opens_group(rest: &[u8]) -> bool
    ensures { result ≡ opens (cards_of rest.now) }
{
    let len = card_len(rest);
    len == rest.len() || card::field_is(&rest[..len], 1, b"PTY")
}

// How many bytes the first group of what is left of a deck takes.
fn group_len(rest: &[u8]) -> usize
    ensures { (result ≡ group_size rest.now) × (result ≤ length rest.now) }
{
    let mut at: usize = 0;
    // Stays: by document 01 the next card starts where the last ended, as the part `&rest[at..]`.
    while at < rest.len() {
        let len = card_len(&rest[at..]);
        let end = at + len;
        if end == rest.len() {
            return at;
        }
        at = end + 1;
        if opens_group(&rest[at..]) {
            return at;
        }
    }
    at
}

// The first group of what is left of a deck, as a part of it; empty where no card is left.
pub fn first_group(rest: &[u8]) -> &[u8]
    ensures { result.now ≡ take (group_size rest.now) rest.now }
{
    &rest[..group_len(rest)]
}
