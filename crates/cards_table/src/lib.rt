// The parameter table of a request's PM cards, in lent room.
#![tactic(auto)]

ghost use Rattle.std.specs.Prelude.{◌≡◌, cond, ◌+◌, ◌<◌, take};
ghost use Rattle.numbers.specs.Limits.{pm_length};
ghost use Rattle.text.specs.Room.{Puts};
ghost use Rattle.cards_fields.specs.Fields.{padded};
ghost use Rattle.cards_request.specs.Requests.{texts};
ghost use Rattle.cards_table.specs.Table.{is_pm_text, digit_in, letters_in, rows, card_at, Table};
ghost use Rattle.cards_table.specs.TableText.{table_text};

use cards_request::{Further, FurtherCard};
use numbers::limits;
use text::room::Room;

// The row of the table that a card fills, the first being 1: its digit and one more. A card that is not PM fills none,
// which is 0.
fn row_of(card: FurtherCard) -> usize
    ensures { result ≡ cond (is_pm_text (take card.len card.text)) (digit_in (take card.len card.text) + 1) 0 }
{
    if card.len < 3 {
        return 0;
    }
    let b = card.text;
    if b[0] != b'P' {
        return 0;
    }
    if b[1] != b'M' {
        return 0;
    }
    if text::is_digit(b[2]) {
        return (b[2] - b'0') as usize + 1;
    }
    0
}

// How many rows the table has: up to the card of the highest digit.
fn row_count(further: Further) -> usize
    ensures { result ≡ rows (texts further) }
{
    let n = cards_further::count_of(further);
    let cards = further.cards;
    let mut most: usize = 0;
    for i in 0..n {
        most = most.max(row_of(cards[i]));
    }
    most
}

// The card of a digit, the blank card if there is none: it has no text either.
fn card_of(further: Further, digit: usize) -> FurtherCard
    requires { digit < 10 }
    ensures { letters_in (take result.len result.text) ≡ card_at digit (texts further) }
{
    let n = cards_further::count_of(further);
    let cards = further.cards;
    for i in 0..n {
        let card = cards[i];
        if row_of(card) == digit + 1 {
            return card;
        }
    }
    cards_request::no_card()
}

// Puts a card's row: the characters behind `PMn,` but for the period at the end, and blanks up to 66.
fn put_row(out: &mut Room, card: FurtherCard)
    ensures { Puts out.old (padded pm_length (letters_in (take card.len card.text))) out.new }
{
    let n = cards_further::len_of(card);
    let text = card.text;
    for k in 0..limits::PM_LENGTH {
        let mut b = b' ';
        if k + 5 < n {
            b = text[k + 4];
        }
        out.put_byte(b);
    }
}

// Puts the rows, one for each digit up to the highest.
fn put_rows(out: &mut Room, further: Further)
    ensures { Puts out.old (table_text further) out.new }
{
    let n = row_count(further);
    for digit in 0..n {
        put_row(out, card_of(further, digit));
    }
}

// Puts the parameter table at the start of the room and answers how long it is: nothing for a request without PM cards.
pub fn put_table(room: &mut [u8; limits::TABLE_LENGTH], further: Further) -> usize
    ensures { Table further room.old room.new result }
{
    let mut out = Room { bytes: room, at: 0 };
    put_rows(&mut out, further);
    out.at
}
