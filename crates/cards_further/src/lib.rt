// The further cards of a group, those behind its FAC card: their errors, and what is held of them. They are looked at
// as a part of the deck, each card as the part that starts where the last one ended.
#![tactic(auto)]

ghost use Rattle.std.specs.Prelude.{◌≡◌, ℕ, Bool, List, false, cond, ◌&&◌, ◌||◌, [], ◌+◌, ◌≤◌, ltb, length, take, drop};
ghost use Rattle.std.specs.Borrow.{Bor};
ghost use Rattle.numbers.specs.Elements.{any};
ghost use Rattle.text.specs.Room.{Written, Puts};
ghost use Rattle.cards_fields.specs.Deck.{cards_of};
ghost use Rattle.cards_request.specs.Requests.{texts};
ghost use Rattle.cards_fac.specs.Fac.{is_fac};
ghost use Rattle.cards_pm.specs.Pm.{is_pm, digit_of, rising};
ghost use Rattle.cards_trn.specs.Trn.{is_trn, has_count};
ghost use Rattle.cards_further.specs.Together.{past, apart};
ghost use Rattle.cards_further.specs.Further.{other_than, unknown, unnumbered, faulty, types_error, pm_wrong, together_error};
ghost use Rattle.cards_further.specs.Further.{content_error, contents_error, canonical, canonicals, held_card, held};

use cards_fields::{card, deck};
use cards_request::{CardError, Further, FurtherCard};
use numbers::limits;
use text::room::Room;

// Whether a card is a FAC card.
fn is_fac(card: &[u8]) -> bool
    ensures { result ≡ is_fac card.now }
{
    card::field_is(card, 1, b"FAC")
}

// Whether a card is of no known type.
fn is_unknown(card: &[u8]) -> bool
    ensures { result ≡ unknown card.now }
{
    !(is_fac(card) || cards_tal::is_tal(card) || cards_trn::is_trn(card) || cards_pm::is_pm(card))
}

// Whether a card is a PM card without a one-digit number.
fn is_unnumbered(card: &[u8]) -> bool
    ensures { result ≡ unnumbered card.now }
{
    cards_pm::is_pm(card) && !cards_pm::is_numbered(card)
}

// Whether a card is a PM card that is malformed or too long.
fn is_faulty(card: &[u8]) -> bool
    ensures { result ≡ faulty card.now }
{
    cards_pm::is_pm(card) && cards_pm::is_fault(card)
}

// How much is taken by the cards in front that all give the same answer to a test.
fn skip<F: Fn(&[u8]) -> bool>(rest: &[u8], test: &F, want: bool) -> usize
    requires { F.IsAlwaysCallable test.now }
    ensures within { result ≤ length rest.now }
    ensures left { (p : List ℕ → Bool) → ((card : Bor (List ℕ)) (answer : Bool) → F.post test.now card answer → answer ≡ p card.now)
        → cards_of (drop result rest.now) ≡ past want p (cards_of rest.now) }
{
    let mut at: usize = 0;
    // Stays: a card starts where the last one ended, as docs/ARCHITECTURE.md binds it, and the step is a card's length.
    while at < rest.len() {
        let len = deck::card_len(&rest[at..]);
        let end = at + len;
        if end == rest.len() {
            return at;
        }
        if test(&rest[at..end]) != want {
            return at;
        }
        at = end + 1;
    }
    at
}

// Whether a card passes a test.
fn is_any<F: Fn(&[u8]) -> bool>(rest: &[u8], test: F) -> bool
    requires { F.IsAlwaysCallable test }
    ensures { (p : List ℕ → Bool) → ((card : Bor (List ℕ)) (answer : Bool) → F.post test card answer → answer ≡ p card.now)
        → result ≡ any p (cards_of rest.now) }
{
    let at = skip(rest, &test, false);
    let len = deck::card_len(&rest[at..]);
    len != rest.len() - at
}

// Whether the cards of a kind, told by a test, stand apart: one more behind the first run of them.
fn is_apart<F: Fn(&[u8]) -> bool>(rest: &[u8], test: F) -> bool
    requires { F.IsAlwaysCallable test }
    ensures { (p : List ℕ → Bool) → ((card : Bor (List ℕ)) (answer : Bool) → F.post test card answer → answer ≡ p card.now)
        → result ≡ apart p (cards_of rest.now) }
{
    let from = skip(rest, &test, false);
    let run = &rest[from..];
    let past = skip(run, &test, true);
    is_any(&run[past..], test)
}

// Whether a card is a PM card whose digit is less than it may be.
fn is_low(card: &[u8], least: usize) -> bool
    ensures { result ≡ (is_pm card.now && ltb (digit_of card.now) least) }
{
    cards_pm::is_pm(card) && (cards_pm::digit_of(card) as usize) < least
}

// What the next digit may be at least behind a card.
fn least_behind(card: &[u8], least: usize) -> usize
    ensures { result ≡ cond (is_pm card.now) (digit_of card.now + 1) least }
{
    if cards_pm::is_pm(card) {
        return cards_pm::digit_of(card) as usize + 1;
    }
    least
}

// Whether the digits of the PM cards rise.
fn is_rising(rest: &[u8]) -> bool
    ensures { result ≡ rising 0 (cards_of rest.now) }
{
    let mut least: usize = 0;
    let mut at: usize = 0;
    // Stays: as in `skip`, the step is a card's length.
    while at < rest.len() {
        let len = deck::card_len(&rest[at..]);
        let end = at + len;
        if end == rest.len() {
            return true;
        }
        let card = &rest[at..end];
        if is_low(card, least) {
            return false;
        }
        least = least_behind(card, least);
        at = end + 1;
    }
    true
}

// Whether a card has another ID than the PTY card's, which has at most twelve bytes.
pub fn is_other_id(rest: &[u8], id: &[u8]) -> bool
    ensures { result ≡ any (other_than id.now) (cards_of rest.now) }
{
    is_any(rest, |card| !card::field_is(card, 0, id))
}

// The errors of the cards' types: a FAC card, then one of unknown type.
pub fn types_error(rest: &[u8]) -> Result<(), CardError>
    ensures { result ≡ types_error (cards_of rest.now) }
{
    if is_any(rest, is_fac) {
        return Err(CardError::LaterFac);
    }
    if is_any(rest, is_unknown) {
        return Err(CardError::UnknownCard);
    }
    Ok(())
}

// Whether the PM cards stand apart, one is malformed or too long, or their digits do not rise.
fn is_pm_wrong(rest: &[u8]) -> bool
    ensures { result ≡ pm_wrong (cards_of rest.now) }
{
    is_apart(rest, cards_pm::is_pm) || is_any(rest, is_faulty) || !is_rising(rest)
}

// The errors of the cards as they stand together: 30, 4, 23, 24.
pub fn together_error(rest: &[u8]) -> Result<(), CardError>
    ensures { result ≡ together_error (cards_of rest.now) }
{
    if is_any(rest, is_unnumbered) {
        return Err(CardError::PmNumber);
    }
    if is_pm_wrong(rest) {
        return Err(CardError::PmWrong);
    }
    if is_apart(rest, cards_tal::is_tal) {
        return Err(CardError::TalApart);
    }
    if is_apart(rest, cards_trn::is_trn) {
        return Err(CardError::TrnApart);
    }
    Ok(())
}

// The content error of a card; `counted`: an earlier TRN card has a count.
fn content_error(card: &[u8], counted: bool) -> Result<(), CardError>
    ensures { result ≡ content_error counted card.now }
{
    if cards_tal::is_tal(card) {
        return cards_tal::tal_error(card);
    }
    if cards_trn::is_trn(card) {
        return cards_trn::trn_error(card, counted);
    }
    Ok(())
}

// Whether a TRN card has a count, up to this card.
fn is_counted(card: &[u8], counted: bool) -> bool
    ensures { result ≡ (counted || (is_trn card.now && has_count card.now)) }
{
    counted || (cards_trn::is_trn(card) && cards_trn::has_count(card))
}

// The first content error, card by card.
pub fn contents_error(rest: &[u8]) -> Result<(), CardError>
    ensures { result ≡ contents_error false (cards_of rest.now) }
{
    let mut counted = false;
    let mut at: usize = 0;
    // Stays: as in `skip`, the step is a card's length.
    while at < rest.len() {
        let len = deck::card_len(&rest[at..]);
        let end = at + len;
        if end == rest.len() {
            return Ok(());
        }
        let card = &rest[at..end];
        content_error(card, counted)?;
        counted = is_counted(card, counted);
        at = end + 1;
    }
    Ok(())
}

// Puts a card from its type on.
fn put_canonical(room: &mut Room, card: &[u8])
    ensures { Puts room.old (canonical card.now) room.new }
{
    if cards_tal::is_tal(card) {
        cards_tal::put_tal(room, card);
    } else if cards_trn::is_trn(card) {
        cards_trn::put_trn(room, card);
    } else {
        cards_pm::put_pm(room, card);
    }
}

// Puts it at the start of lent bytes.
fn canonical_in(bytes: &mut [u8], card: &[u8]) -> usize
    ensures { Written bytes.old 0 (canonical card.now) bytes.new result }
{
    let mut room = Room { bytes, at: 0 };
    put_canonical(&mut room, card);
    room.at
}

// A card as it is held.
fn held_card(card: &[u8]) -> FurtherCard
    ensures { result ≡ held_card (canonical card.now) }
{
    let mut text = [b' '; limits::TEXT_LENGTH];
    let len = canonical_in(&mut text, card);
    FurtherCard { text, len }
}

// The cards as they are held, the first fourteen of them.
pub fn held(rest: &[u8]) -> Further
    ensures { result ≡ held (canonicals (cards_of rest.now)) }
{
    let none = cards_request::no_further();
    let mut cards = none.cards;
    let mut count: usize = 0;
    let mut at: usize = 0;
    // Stays: as in `skip`, the step is a card's length.
    while at < rest.len() {
        let len = deck::card_len(&rest[at..]);
        let end = at + len;
        if end == rest.len() {
            return Further { cards, count };
        }
        if count == limits::MOST_FURTHER {
            return Further { cards, count };
        }
        cards[count] = held_card(&rest[at..end]);
        count += 1;
        at = end + 1;
    }
    Further { cards, count }
}

// How many further cards there are: a value that says more than it has room for has fourteen.
pub fn count_of(further: Further) -> usize
    ensures { result ≡ length (texts further) }
{
    further.count.min(limits::MOST_FURTHER)
}

// How long a card's text is: one that says more than it has room for has 78 bytes.
pub fn len_of(card: FurtherCard) -> usize
    ensures { result ≡ length (take card.len card.text) }
{
    card.len.min(limits::TEXT_LENGTH)
}
