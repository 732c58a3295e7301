// A deck gathered card by card into lent room, up to its termination card.
#![tactic(auto)]

ghost use Rattle.std.specs.Prelude.{◌≡◌, length};
ghost use Rattle.cards_fields.specs.Deck.{is_termination};
ghost use Rattle.shift_deck.specs.Gathering.{Adds};

use numbers::limits;
use text::room::Room;

// Whether a line is the termination card.
pub fn is_last_card(line: &[u8]) -> bool
    ensures { result ≡ is_termination line.now }
{
    cards_fields::deck::is_termination(line)
}

// Puts a card with its LF behind the bytes of the deck that stand in the room, and answers how many there are then;
// where that is over 16,384, nothing.
pub fn add_card(room: &mut [u8; limits::DECK_BYTES], kept: usize, line: &[u8]) -> Option<usize>
    ensures { Adds room.old kept line.now room.new result }
{
    if limits::DECK_BYTES.saturating_sub(kept) <= line.len() {
        return None;
    }
    let mut deck = Room {
        bytes: room,
        at: kept,
    };
    deck.put_bytes(line);
    deck.put_byte(b'\n');
    Some(deck.at)
}
