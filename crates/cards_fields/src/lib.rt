// Cards as lines of a deck, groups of cards as parts of it, a card's fields and the parts of these.
#![tactic(auto)]

pub mod card;
pub mod deck;
pub mod parts;

// A field of a card, spaces dropped: its first twelve bytes, blanks behind them, and how long it is.
#[derive(Clone, Copy)]
pub struct Field {
    pub bytes: [u8; 12],
    pub len: usize,
}
