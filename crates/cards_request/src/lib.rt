// What all cards share: the request, its further cards, the card errors and their numbers, and the request for nothing.
#![tactic(auto)]

ghost use Rattle.std.specs.Prelude.{◌≡◌};
ghost use Rattle.cards_request.specs.Errors.{error_number, good};
ghost use Rattle.cards_request.specs.Requests.{no_facilities, no_request, no_card, no_further};

use numbers::limits;

// What is wrong with a group of cards, in the order in which errors are looked for; the last four are the schedule's to
// find.
#[derive(Clone, Copy, Debug, PartialEq, Eq)]
pub enum CardError {
    NotPty,
    PtyMalformed,
    IdLength,
    WrongRush,
    WrongLength,
    WrongContent,
    WrongCount,
    NoFac,
    LaterFac,
    UnknownCard,
    OtherId,
    PmNumber,
    PmWrong,
    TalApart,
    TrnApart,
    FacMalformed,
    LongCode,
    UnknownCode,
    WrongEntry,
    TooMuchCore,
    NoIb,
    TalWrong,
    TalLong,
    TrnWrong,
    TrnLong,
    InSchedule,
    SamePriority,
    SameSequence,
    ScheduleFull,
}

// How many counts of units a request has: one for each of the 16 logical channels of each kind but the drum.
pub const COUNTS: usize = numbers::UNIT_KINDS * 16;

// What a request asks for, 0 for none: blocks, drum words, and units at order * 16 + logical channel, kinds in the
// written order, MA, MT, PR, MC, CR, PT.
#[derive(Clone, Copy)]
pub struct Facilities {
    pub ib: u8,
    pub db: u8,
    pub md: u32,
    pub units: [u8; COUNTS],
}

// A job request in one form: names padded with blanks, a mark that is left out a blank, an absent sequence 0. The
// bulletin calls immediate RUN NOW, device PROGRAM MEDIUM, medium MEDIUM NAME, mode RUN TYPE, store LIBRARY MEDIUM,
// library LIBRARY NAME.
#[derive(Clone, Copy)]
pub struct Request {
    pub id: [u8; 6],
    pub rush: u8,
    pub program: [u8; 12],
    pub immediate: u8,
    pub device: u8,
    pub medium: [u8; 6],
    pub mode: u8,
    pub sequence: u8,
    pub letter: u8,
    pub precedence: u8,
    pub mix: u8,
    pub minutes: u32,
    pub store: u8,
    pub library: [u8; 6],
    pub facilities: Facilities,
}

// A further card in one form: its text from the type on, blanks behind it, and how long the text is. Spaces are dropped
// but in PM text, numbers have no leading zeros, and the ID is said once, in the request.
#[derive(Clone, Copy)]
pub struct FurtherCard {
    pub text: [u8; limits::TEXT_LENGTH],
    pub len: usize,
}

// A request's further cards in the order read, blank ones behind them, and how many they are.
#[derive(Clone, Copy)]
pub struct Further {
    pub cards: [FurtherCard; limits::MOST_FURTHER],
    pub count: usize,
}

// A request with its further cards.
#[derive(Clone, Copy)]
pub struct FullRequest {
    pub request: Request,
    pub further: Further,
}

// A card error's number.
pub fn number_of(error: CardError) -> u8
    ensures { result ≡ error_number error }
{
    match error {
        CardError::NotPty => 25,
        CardError::PtyMalformed => 17,
        CardError::IdLength => 1,
        CardError::WrongRush => 28,
        CardError::WrongLength => 18,
        CardError::WrongContent => 17,
        CardError::WrongCount => 20,
        CardError::NoFac => 28,
        CardError::LaterFac => 22,
        CardError::UnknownCard => 3,
        CardError::OtherId => 25,
        CardError::PmNumber => 30,
        CardError::PmWrong => 4,
        CardError::TalApart => 23,
        CardError::TrnApart => 24,
        CardError::FacMalformed => 12,
        CardError::LongCode => 9,
        CardError::UnknownCode => 11,
        CardError::WrongEntry => 13,
        CardError::TooMuchCore => 14,
        CardError::NoIb => 27,
        CardError::TalWrong => 5,
        CardError::TalLong => 6,
        CardError::TrnWrong => 7,
        CardError::TrnLong => 8,
        CardError::InSchedule => 26,
        CardError::SamePriority => 31,
        CardError::SameSequence => 90,
        CardError::ScheduleFull => 91,
    }
}

// Whether nothing is wrong.
pub fn is_good(verdict: Result<(), CardError>) -> bool
    ensures { result ≡ good verdict }
{
    verdict.is_ok()
}

// What asks for nothing.
pub fn no_facilities() -> Facilities
    ensures { result ≡ no_facilities }
{
    Facilities {
        ib: 0,
        db: 0,
        md: 0,
        units: [0u8; COUNTS],
    }
}

// The blank request: blanks, zeros, and nothing asked for.
pub fn no_request() -> Request
    ensures { result ≡ no_request }
{
    let facilities = no_facilities();
    Request {
        id: [b' '; 6],
        rush: b' ',
        program: [b' '; 12],
        immediate: b' ',
        device: b' ',
        medium: [b' '; 6],
        mode: b' ',
        sequence: 0,
        letter: b' ',
        precedence: 0,
        mix: b' ',
        minutes: 0,
        store: b' ',
        library: [b' '; 6],
        facilities,
    }
}

// The blank card.
pub fn no_card() -> FurtherCard
    ensures { result ≡ no_card }
{
    FurtherCard {
        text: [b' '; limits::TEXT_LENGTH],
        len: 0,
    }
}

// No further cards.
pub fn no_further() -> Further
    ensures { result ≡ no_further }
{
    Further {
        cards: [no_card(); limits::MOST_FURTHER],
        count: 0,
    }
}
