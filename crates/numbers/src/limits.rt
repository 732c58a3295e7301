// The limits, in document 01's order, and those of the requests after it: each is said here and in specs/Limits.antt, and
// what follows from one is computed. Sixteen channels, units, places and packets are a width and no limit of this kind.

// How many blocks core has.
pub const BLOCKS: u8 = 32;

// The first block that is assignable.
pub const FIRST_BLOCK: u8 = 2;

// The last one.
pub const LAST_BLOCK: u8 = 29;

// How many blocks are assignable, and so how many a request asks for at most.
pub const MOST_BLOCKS: u8 = LAST_BLOCK - FIRST_BLOCK + 1;

// The lowest assignable address of the drum.
pub const LOWEST_ADDRESS: u32 = 35329;

// How many requests the schedule holds.
pub const MOST_REQUESTS: usize = 64;

// How many words a drum has at least, so that one of them is assignable.
pub const LEAST_WORDS: u32 = LOWEST_ADDRESS + 1;

// How many it has at most.
pub const MOST_WORDS: u32 = 1000000;

// How many codes that set interlock a configuration lists.
pub const MOST_CODES: u32 = 60;

// How many bytes a deck has.
pub const DECK_BYTES: usize = 16384;

// How many characters a card has.
pub const CARD_LENGTH: usize = 80;

// The last sequence.
pub const LAST_SEQUENCE: u8 = 63;

// The last precedence.
pub const LAST_PRECEDENCE: u8 = 63;

// How many cards a request has.
pub const MOST_CARDS: usize = 16;

// How many of them come after PTY and FAC.
pub const MOST_FURTHER: usize = MOST_CARDS - 2;

// How many characters a further card has from its type on: an ID, of one character at least, and a comma stand before it.
pub const TEXT_LENGTH: usize = CARD_LENGTH - 2;

// How many bytes hold the cards of every request, each with its LF.
pub const CARDS_ROOM: usize = MOST_CARDS * (CARD_LENGTH + 1);

// How many characters the text of a PM card has.
pub const PM_LENGTH: usize = 66;

// How many PM cards there are: one for each digit.
pub const PM_CARDS: usize = 10;

// How many characters a parameter table has.
pub const TABLE_LENGTH: usize = PM_CARDS * PM_LENGTH;
