// The further cards of a request, each put behind the one before it.
ghost use Rattle.std.specs.Prelude.{◌≡◌, ℕ, ◌+◌, ◌≤◌, List, ◌∷◌, ◌++◌, length, take};
ghost use Rattle.numbers.specs.Quoted.{byte};
ghost use Rattle.numbers.specs.Limits.{card_length};
ghost use Rattle.words.specs.Lines.{line_text, lines_text};
ghost use Rattle.text.specs.Room.{Puts, Written};
ghost use Rattle.cards_fields.specs.Fields.{spaceless};
ghost use Rattle.cards_request.specs.Requests.{texts};
ghost use Rattle.cards_full.specs.Full.{behind_id, short};

use cards_fields::parts;
use cards_request::{Further, FurtherCard};
use numbers::limits;
use text::room::Room;

// Puts a card behind an ID: a comma, its text from the type on, and LF.
fn put_card(room: &mut Room, id: &[u8], card: FurtherCard)
    ensures { Puts room.old (line_text (spaceless id.now ++ (byte "," ∷ take card.len card.text))) room.new }
{
    parts::put_name(room, id);
    room.put_byte(b',');
    let n = cards_further::len_of(card);
    let bytes = card.text;
    room.put_bytes(&bytes[..n]);
    room.put_byte(b'\n');
}

// Puts the further cards, each behind an ID.
pub(crate) fn put_further(room: &mut Room, id: &[u8], further: Further)
    ensures { Puts room.old (lines_text (behind_id (spaceless id.now) (texts further))) room.new }
{
    let n = cards_further::count_of(further);
    let cards = further.cards;
    for i in 0..n {
        put_card(room, id, cards[i]);
    }
}

// Puts them at the start of lent bytes.
pub(crate) fn further_in(bytes: &mut [u8], id: &[u8], further: Further) -> usize
    ensures { Written bytes.old 0 (lines_text (behind_id (spaceless id.now) (texts further))) bytes.new result }
{
    let mut room = Room { bytes, at: 0 };
    put_further(&mut room, id, further);
    room.at
}

// Whether no further card is too long, with so many before its type: an ID and a comma.
pub(crate) fn are_short(before: usize, further: Further) -> bool
    requires { before ≤ card_length }
    ensures { (id : List ℕ) → length id + 1 ≡ before → result ≡ short (behind_id id (texts further)) }
{
    let n = cards_further::count_of(further);
    let cards = further.cards;
    for i in 0..n {
        if limits::CARD_LENGTH - before < cards_further::len_of(cards[i]) {
            return false;
        }
    }
    true
}
