// Whether a request with its further cards is one that cards can hold.
ghost use Rattle.std.specs.Prelude.{◌≡◌, ◌&&◌, eqb};
ghost use Rattle.words.specs.Words.{same};
ghost use Rattle.cards_fields.specs.Deck.{cards_of};
ghost use Rattle.cards_full.specs.Full.{further_error, same_cards, takes_further, takes_full};

use crate::put;
use cards_request::{CardError, FullRequest, Further, FurtherCard};
use numbers::limits;

// The errors that further cards have by themselves.
fn further_error(cards: &[u8]) -> Result<(), CardError>
    ensures { result ≡ further_error (cards_of cards.now) }
{
    cards_further::types_error(cards)?;
    cards_further::together_error(cards)?;
    cards_further::contents_error(cards)
}

// Whether two cards are held alike.
fn is_same_card(c: FurtherCard, d: FurtherCard) -> bool
    ensures { result ≡ (eqb c.len d.len && same c.text d.text) }
{
    if c.len != d.len {
        return false;
    }
    let s = c.text;
    let t = d.text;
    words::is_same(&s, &t)
}

// Whether the cards of two values are held alike.
fn are_same_cards(f: Further, g: Further) -> bool
    ensures { result ≡ same_cards f.cards g.cards }
{
    let c = f.cards;
    let d = g.cards;
    for k in 0..limits::MOST_FURTHER {
        if !is_same_card(c[k], d[k]) {
            return false;
        }
    }
    true
}

// Whether the writer takes further cards: read without an ID they have no error and give the same value again.
fn is_taken_further(further: Further) -> bool
    ensures { result ≡ takes_further further }
{
    // so many cards of a comma, a text and LF
    let mut lines = [0u8; limits::MOST_FURTHER * (limits::TEXT_LENGTH + 2)];
    let n = put::further_in(&mut lines, b"", further);
    let cards = &lines[..n];
    if !cards_request::is_good(further_error(cards)) {
        return false;
    }
    let again = cards_further::held(cards);
    if again.count != further.count {
        return false;
    }
    are_same_cards(again, further)
}

// Whether the writer takes a request with its further cards.
pub(crate) fn is_taken(full: FullRequest) -> bool
    ensures { result ≡ takes_full full }
{
    let further = full.further;
    if !is_taken_further(further) {
        return false;
    }
    cards_writing::check::is_taken(full.request, 2 + further.count)
}
