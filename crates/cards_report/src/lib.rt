// What the cards program prints, piece by piece in lent room: a piece is the text of one group, so that a small room
// holds each, however long the whole is.
#![tactic(auto)]

ghost use Rattle.std.specs.Prelude.{◌≡◌, Ok, ◌-◌, take, drop};
ghost use Rattle.text.specs.Room.{Puts};
ghost use Rattle.cards_fields.specs.Deck.{cards_of};
ghost use Rattle.cards_group.specs.Group.{read_full};
ghost use Rattle.cards_report.specs.Cards.{table_text, refusal_line, text_by, over, begin, Prints};

use cards_fields::{deck, parts};
use cards_request::{FullRequest, Further};
use numbers::{Refusal, limits};
use text::room::Room;

// How many turns print whatever a buffer of 65,536 bytes holds: a group has a byte at least, and one turn more ends it.
pub const TURNS: usize = 65537;

// How many bytes hold each piece: a request's cards, the line before its table and that table's lines.
pub const ROOM: usize = 2048;

// What is to come: groups, the line of a refused deck, or nothing.
#[derive(Clone, Copy)]
pub enum Coming {
    Groups,
    Refused(Refusal),
    Over,
}

// How far a deck is printed: the groups from `from` up to `end` are to come, and `shown` is the ID that an error line
// shows.
#[derive(Clone, Copy)]
pub struct Printing {
    pub coming: Coming,
    pub from: usize,
    pub end: usize,
    pub shown: [u8; 6],
}

// How long a piece is, and what is to come behind it.
#[derive(Clone, Copy)]
pub struct Printed {
    pub at: usize,
    pub printing: Printing,
}

// Puts the lines of the parameter table, nothing where there is none.
fn put_table(out: &mut Room, further: Further)
    ensures { Puts out.old (table_text further) out.new }
{
    let mut table = [b' '; limits::TABLE_LENGTH];
    let n = cards_table::put_table(&mut table, further);
    if n == 0 {
        return;
    }
    out.put_bytes(b"PMT ");
    out.put_decimal(n as u64);
    out.put_byte(b'\n');
    let mut from: usize = 0;
    // Stays: the step is a row's 66 characters, and of `step_by` the check leaves the measure open.
    while from < n {
        out.put_byte(b'=');
        out.put_bytes(&table[from..from + limits::PM_LENGTH]);
        out.put_byte(b'\n');
        from += limits::PM_LENGTH;
    }
}

// Puts the line of a request that is not to be written.
fn put_refusal(out: &mut Room, id: [u8; 6], refusal: Refusal)
    ensures { Puts out.old (refusal_line id refusal) out.new }
{
    out.put_bytes(b"SP ");
    parts::put_name(out, &id);
    out.put_bytes(b" NO ");
    out.put_decimal(numbers::number_of(refusal) as u64);
    out.put_byte(b'\n');
}

// Puts a request's cards and its table.
fn put_good(out: &mut Room, shown: [u8; 6], full: FullRequest)
    ensures { Puts out.old (text_by (Ok tt) full shown) out.new }
{
    let mut room = [0u8; limits::CARDS_ROOM];
    match cards_full::write(&mut room, full) {
        Ok(n) => {
            out.put_bytes(&room[..n]);
            put_table(out, full.further);
        }
        Err(refusal) => put_refusal(out, shown, refusal),
    }
}

// Puts what is printed of a group; the ID is the one that an error line shows.
fn put_group(out: &mut Room, shown: [u8; 6], group: &[u8])
    ensures { Puts out.old
        (text_by (read_full (cards_of group.now)).verdict (read_full (cards_of group.now)).full shown)
        out.new }
{
    let reading = cards_group::read_full(group);
    let verdict = reading.verdict;
    match verdict {
        Ok(()) => put_good(out, shown, reading.full),
        Err(e) => cards_lines::put_error(out, shown, e),
    }
}

// Nothing more is to come.
fn over(p: Printing) -> Printing
    ensures { result ≡ over p }
{
    let shown = p.shown;
    Printing {
        coming: Coming::Over,
        from: p.from,
        end: p.end,
        shown,
    }
}

// Before the first piece of a deck.
pub fn begin(deck: &[u8]) -> Printing
    ensures { result ≡ begin deck.now }
{
    let end = deck::deck_end(deck);
    match end {
        Ok(n) => Printing {
            coming: Coming::Groups,
            from: 0,
            end: n,
            shown: *b"------",
        },
        Err(refusal) => Printing {
            coming: Coming::Refused(refusal),
            from: 0,
            end: 0,
            shown: *b"------",
        },
    }
}

// What is left of a deck to be printed, as a part of it.
fn rest(deck: &[u8], p: Printing) -> &[u8]
    ensures { result.now ≡ take (p.end - p.from) (drop p.from deck.now) }
{
    let from = p.from;
    let end = p.end;
    if end <= from {
        return &deck[0..0];
    }
    if deck.len() <= from {
        return &deck[0..0];
    }
    if deck.len() < end {
        return &deck[from..];
    }
    &deck[from..end]
}

// Puts the next group, or the last line where there is none.
fn put_next(out: &mut [u8; ROOM], deck: &[u8], p: Printing) -> Printed
    requires { p.coming ≡ Coming.Groups }
    ensures { Prints deck.now p out.old out.new result }
{
    let group = deck::first_group(rest(deck, p));
    let n = group.len();
    let mut room = Room { bytes: out, at: 0 };
    if n == 0 {
        room.put_bytes(b"END OF CARDS\n");
        let printing = over(p);
        return Printed {
            at: room.at,
            printing,
        };
    }
    let before = p.shown;
    let shown = cards_lines::shown_by(deck::card_at(group, 0), before);
    put_group(&mut room, shown, group);
    let printing = Printing {
        coming: Coming::Groups,
        from: p.from + n,
        end: p.end,
        shown,
    };
    Printed {
        at: room.at,
        printing,
    }
}

// Puts the next piece into lent room, which holds each, and answers how long it is and what is to come behind it.
pub fn next(deck: &[u8], printing: Printing, out: &mut [u8; ROOM]) -> Printed
    ensures { Prints deck.now printing out.old out.new result }
{
    let coming = printing.coming;
    match coming {
        Coming::Groups => put_next(out, deck, printing),
        Coming::Refused(refusal) => {
            let mut room = Room { bytes: out, at: 0 };
            cards_lines::put_refused(&mut room, refusal);
            let last = over(printing);
            Printed {
                at: room.at,
                printing: last,
            }
        }
        Coming::Over => {
            let last = over(printing);
            Printed {
                at: 0,
                printing: last,
            }
        }
    }
}
