// Two decks on the desk: a request's own cards, as a part of the deck that has them. Nothing is copied, nothing is
// checked, and there is no cell.
#![tactic(auto)]

ghost use Rattle.std.specs.Prelude.{◌≡◌};
ghost use Rattle.cards_fields.specs.Fields.{is_name};
ghost use Rattle.desk_show.specs.Showing.{opens_for, part_of, Shows, Shown};
ghost use Rattle.desk_show.specs.Seeking.{refused_for, Seeks, FindsIn, clipped_to, span_of};

use cards_fields::{card, deck};
use numbers::Refusal;
use words::Class;

// One of the two decks.
#[derive(Clone, Copy, PartialEq, Eq)]
pub enum Which {
    Repair,
    Day,
}

// Which deck has the group, or the refusal; and where the group's cards stand in that deck, from a byte on, so many
// bytes. Both are 0 where there is a refusal.
#[derive(Clone, Copy)]
pub struct Extent {
    pub which: Result<Which, Refusal>,
    pub from: usize,
    pub len: usize,
}

// The bytes of a deck from one to before another.
#[derive(Clone, Copy)]
struct Span {
    which: Which,
    from: usize,
    end: usize,
}

// Whether a text is an ID as it stands: no space of it is dropped.
fn is_id(id: &[u8]) -> bool
    ensures { result ≡ is_name id.now }
{
    if id.len() < 1 {
        return false;
    }
    if 6 < id.len() {
        return false;
    }
    words::all_of(Class::Alnum, id)
}

// Whether a card opens a group with this ID.
fn opens_for(id: &[u8], card: &[u8]) -> bool
    ensures { result ≡ opens_for id.now card.now }
{
    if !card::field_is(card, 1, b"PTY") {
        return false;
    }
    if !is_id(id) {
        return false;
    }
    card::field_is(card, 0, id)
}

// Where the first group of an ID stands among the cards of a deck, from a byte on, so many bytes. Each group is looked at
// as the part that starts where the last one ended.
fn seek(id: &[u8], cards: &[u8]) -> Option<(usize, usize)>
    ensures { Seeks id.now cards.now result }
{
    let mut from: usize = 0;
    // Stays: the next group starts where the last one ended, as docs/ARCHITECTURE.md binds it: the step is its length.
    while from < cards.len() {
        let group = deck::first_group(&cards[from..]);
        let n = group.len();
        // Bytes behind the last LF are no card: without this they would be looked at for ever.
        if n == 0 {
            return None;
        }
        if opens_for(id, deck::card_at(group, 0)) {
            return Some((from, n));
        }
        from += n;
    }
    None
}

// No cards are shown.
fn refused(refusal: Refusal) -> Extent
    ensures { result ≡ refused_for refusal }
{
    Extent {
        which: Err(refusal),
        from: 0,
        len: 0,
    }
}

// Where the first group of an ID stands: among the repair deck's cards if it is there, else among the day's.
fn find_in(id: &[u8], repair: &[u8], day: &[u8]) -> Extent
    ensures { FindsIn id.now repair.now day.now result }
{
    match seek(id, repair) {
        Some((from, len)) => Extent {
            which: Ok(Which::Repair),
            from,
            len,
        },
        None => match seek(id, day) {
            Some((from, len)) => Extent {
                which: Ok(Which::Day),
                from,
                len,
            },
            None => refused(Refusal::NoGroup),
        },
    }
}

// Which of two decks has the first group of an ID, and where, or the refusal. Both decks are looked at before anything
// is searched for, the repair deck first.
pub fn find(id: &[u8], repair: &[u8], day: &[u8]) -> Extent
    ensures { Shows id.now repair.now day.now result (part_of result repair.now day.now) }
{
    match deck::deck_end(repair) {
        Ok(n) => match deck::deck_end(day) {
            Ok(m) => find_in(id, &repair[..n], &day[..m]),
            Err(refusal) => refused(refusal),
        },
        Err(refusal) => refused(refusal),
    }
}

// From a byte on so many bytes of a text of this size, but none past its end: `part_of` answers for every extent, also one
// that no search gives.
fn clipped(which: Which, from: usize, len: usize, size: usize) -> Span
    ensures { result ≡ clipped_to which from len size }
{
    if size <= from {
        return Span {
            which,
            from: size,
            end: size,
        };
    }
    if size - from < len {
        return Span {
            which,
            from,
            end: size,
        };
    }
    Span {
        which,
        from,
        end: from + len,
    }
}

// Where what was found stands in the deck that has it, the two decks being of these sizes.
fn span_of(found: Extent, repair: usize, day: usize) -> Span
    ensures { result ≡ span_of found repair day }
{
    let which = found.which;
    match which {
        Ok(Which::Repair) => clipped(Which::Repair, found.from, found.len, repair),
        Ok(Which::Day) => clipped(Which::Day, found.from, found.len, day),
        Err(_) => clipped(Which::Day, 0, 0, day),
    }
}

// The cards that were found, as a part of the deck that has them; empty where there is a refusal.
pub fn part_of<'a>(found: Extent, repair: &'a [u8], day: &'a [u8]) -> &'a [u8]
    ensures { result.now ≡ part_of found repair.now day.now }
{
    let span = span_of(found, repair.len(), day.len());
    let from = span.from;
    let end = span.end;
    if span.which == Which::Repair {
        return &repair[from..end];
    }
    &day[from..end]
}

// A request's own cards, as a part of the deck that has them: of the repair deck if they are there, else of the day's;
// empty where `find` refuses.
pub fn show<'a>(id: &[u8], repair: &'a [u8], day: &'a [u8]) -> &'a [u8]
    ensures { Shown id.now repair.now day.now result.now }
{
    let found = find(id, repair, day);
    part_of(found, repair, day)
}
