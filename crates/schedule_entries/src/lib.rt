// A request as it stands in the schedule: its state, its key, and the selection order.
#![tactic(auto)]

ghost use Rattle.std.specs.Prelude.{◌≡◌};
ghost use Rattle.schedule_entries.specs.Entries.{key_of, same_rank, same_key, lower_sequence, precedes};
ghost use Rattle.schedule_entries.specs.Entries.{waiting, suspended, active, in_place, serial, blank, first_state};
ghost use Rattle.schedule_entries.specs.Questions.{heading_of};

use cards_request::Request;

// Where a request stands: it waits, is suspended, or its job runs or closes in a place.
#[derive(Clone, Copy, PartialEq, Eq)]
pub enum State {
    Waiting,
    Suspended,
    Running(u8),
    Closing(u8),
}

// A request and where it stands.
#[derive(Clone, Copy)]
pub struct Entry {
    pub request: Request,
    pub state: State,
}

// What the selection order goes by, the first field first.
#[derive(Clone, Copy, PartialEq, Eq, PartialOrd, Ord)]
pub struct Key {
    pub letter: u8,
    pub precedence: u8,
    pub sequence: u8,
}

// What an entry is judged by: its ID, its key and its state.
#[derive(Clone, Copy)]
pub struct Heading {
    pub id: [u8; 6],
    pub key: Key,
    pub state: State,
}

// A request's key.
pub fn key_of(request: &Request) -> Key
    ensures { result ≡ key_of request.now }
{
    Key {
        letter: request.letter,
        precedence: request.precedence,
        sequence: request.sequence,
    }
}

// Whether two keys have the same letter and precedence.
#[tactic(auto, unfolding(crate::specs::Entries::same_rank))]
pub fn same_rank(a: Key, b: Key) -> bool
    ensures { result ≡ same_rank a b }
{
    a.letter == b.letter && a.precedence == b.precedence
}

// Whether two keys are the same.
#[tactic(auto, unfolding(crate::specs::Entries::same_key, crate::specs::Entries::same_rank))]
pub fn same_key(a: Key, b: Key) -> bool
    ensures { result ≡ same_key a b }
{
    a == b
}

// Whether a key has another's letter and precedence and a lower sequence.
#[tactic(auto, unfolding(crate::specs::Entries::lower_sequence))]
pub fn is_lower(a: Key, b: Key) -> bool
    ensures { result ≡ lower_sequence a b }
{
    same_rank(a, b) && a.sequence < b.sequence
}

// Whether a key comes before another in the selection order.
#[tactic(auto, unfolding(crate::specs::Entries::precedes))]
pub fn precedes(a: Key, b: Key) -> bool
    ensures { result ≡ precedes a b }
{
    a < b
}

// Whether a request waits.
pub fn is_waiting(state: State) -> bool
    ensures { result ≡ waiting state }
{
    matches!(state, State::Waiting)
}

// Whether a request is suspended.
pub fn is_suspended(state: State) -> bool
    ensures { result ≡ suspended state }
{
    matches!(state, State::Suspended)
}

// Whether a request's job runs or closes.
pub fn is_active(state: State) -> bool
    ensures { result ≡ active state }
{
    matches!(state, State::Running(_) | State::Closing(_))
}

// Whether a request's job runs or closes in a place.
pub fn is_in_place(state: State, place: u8) -> bool
    ensures { result ≡ in_place place state }
{
    matches!(state, State::Running(p) | State::Closing(p) if p == place)
}

// Whether a request is for an S-type job.
pub fn is_serial(request: &Request) -> bool
    ensures { result ≡ serial request.now }
{
    request.mode == b'S'
}

// An entry's heading.
pub fn heading_of(entry: &Entry) -> Heading
    ensures { result ≡ heading_of entry.now }
{
    Heading {
        id: entry.request.id,
        key: key_of(&entry.request),
        state: entry.state,
    }
}

// What fills the schedule behind its last request.
pub fn blank() -> Entry
    ensures { result ≡ blank }
{
    Entry {
        request: cards_request::no_request(),
        state: State::Waiting,
    }
}

// The entry of a new request: RUSH says whether it enters suspended.
pub fn new_entry(request: Request) -> Entry
    ensures { result ≡ record { request = request; state = first_state request } }
{
    let state = if request.rush == b'S' {
        State::Suspended
    } else {
        State::Waiting
    };
    Entry { request, state }
}
