// The bulletin's three kinds of count, none of which can be passed for another; the kinds of channel; the refusals; the
// limits.
#![tactic(auto)]

pub mod limits;

ghost use Rattle.std.specs.Prelude.{◌≡◌};
ghost use Rattle.numbers.specs.Kinds.{kind_of, code_of, Rowed, order_of, kind_at, is_drum};
ghost use Rattle.numbers.specs.Refusals.{number_of};

// The number by which a job's cards name a channel of theirs, 0 to 15.
#[derive(Clone, Copy, PartialEq, Eq)]
pub struct LogicalChannel(pub u8);

// The number of a channel of the cell, 0 to 15.
#[derive(Clone, Copy, PartialEq, Eq)]
pub struct ChannelNumber(pub u8);

// The number of a unit on its channel, 0 to 15.
#[derive(Clone, Copy, PartialEq, Eq)]
pub struct UnitNumber(pub u8);

// UNISERVO IIA, UNISERVO IIIA, printer, drum, UNISERVO IIIC, card equipment, paper tape equipment: each by its row in the
// table of functions.
#[derive(Clone, Copy, PartialEq, Eq)]
pub enum Kind {
    Ma = 0,
    Mt = 1,
    Pr = 2,
    Md = 3,
    Mc = 4,
    Cr = 5,
    Pt = 6,
}

// How many kinds there are.
pub const KINDS: usize = 7;

// How many kinds have units: all but the drum.
pub const UNIT_KINDS: usize = KINDS - 1;

// The kinds by their rows in the table of functions.
const BY_ROW: [Kind; KINDS] = [
    Kind::Ma,
    Kind::Mt,
    Kind::Pr,
    Kind::Md,
    Kind::Mc,
    Kind::Cr,
    Kind::Pt,
];

// The kinds that have units, in the order in which they are written, served and found lacking.
const IN_ORDER: [Kind; UNIT_KINDS] = [
    Kind::Ma, // 0
    Kind::Mt, // 1
    Kind::Pr, // 2
    Kind::Mc, // 3
    Kind::Cr, // 4
    Kind::Pt, // 5
];

// Why a call is refused, in the order of document 01's table and of the requests after it.
#[derive(Clone, Copy, PartialEq, Eq)]
pub enum Refusal {
    OutOfRange = 1,
    NoJob = 2,
    NotTheJobs = 3,
    NotLegal = 4,
    PacketInUse = 5,
    ChannelBusy = 6,
    NothingStartable = 7,
    NothingInProgress = 8,
    WrongCompletion = 9,
    BadDeck = 11,
    NoRoom = 12,
    WrongRequest = 13,
    BadConfiguration = 14,
    NoSuchRequest = 15,
    JobRuns = 16,
    UnknownMessage = 17,
    NoPlaceFree = 18,
    NoCandidates = 19,
    NoAssignment = 20,
    BeingReturned = 21,
    NoGroup = 22,
}

// The kind whose code two bytes are.
pub fn kind_of(a: u8, b: u8) -> Option<Kind>
    ensures { result ≡ kind_of a b }
{
    BY_ROW
        .iter()
        .find(|kind| [a, b] == code_of(**kind))
        .copied()
}

// A kind's row in the table of functions.
pub fn row_of(kind: Kind) -> usize
    ensures { Rowed kind result }
{
    kind as usize
}

// A kind's code.
pub fn code_of(kind: Kind) -> [u8; 2]
    ensures { result ≡ code_of kind }
{
    match kind {
        Kind::Ma => *b"MA",
        Kind::Mt => *b"MT",
        Kind::Pr => *b"PR",
        Kind::Md => *b"MD",
        Kind::Mc => *b"MC",
        Kind::Cr => *b"CR",
        Kind::Pt => *b"PT",
    }
}

// Where a kind stands among those that have units; the drum, which has none, stands behind them.
pub fn order_of(kind: Kind) -> usize
    ensures { result ≡ order_of kind }
{
    // Stays: a search of the list above would say each kind's place less plainly than this, one line for each kind.
    match kind {
        Kind::Ma => 0,
        Kind::Mt => 1,
        Kind::Pr => 2,
        Kind::Mc => 3,
        Kind::Cr => 4,
        Kind::Pt => 5,
        Kind::Md => UNIT_KINDS,
    }
}

// The kind at a place of that order; behind the last the drum.
pub fn kind_at(order: usize) -> Kind
    ensures { result ≡ kind_at order }
{
    IN_ORDER.get(order).copied().unwrap_or(Kind::Md)
}

// Whether a kind is the drum, which has words and no units.
pub fn is_drum(kind: Kind) -> bool
    ensures { result ≡ is_drum kind }
{
    kind == Kind::Md
}

// A refusal's number.
pub fn number_of(refusal: Refusal) -> u8
    ensures { result ≡ number_of refusal }
{
    refusal as u8
}
