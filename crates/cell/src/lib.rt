// The cell: its schedule and its request lists in one value, and every call on it. The configuration is in the lists,
// as their channels, their units' down marks and their codes that set interlock.
#![tactic(auto)]

ghost use Rattle.std.specs.Prelude.{◌≡◌};
ghost use Rattle.units.specs.declared.Mark.TheVariants.{Down};
ghost use Rattle.packets.specs.declared.Act.TheVariants.{Mark};
ghost use Rattle.cell.specs.Calls.{cell_of, fresh_cell, acted, left_by, followed, releasing};
ghost use Rattle.cell.specs.Calls.{deleting, answer_of, outcome_of, status_of, Enters, SelectsIn, called, heeded, Keys};

use cell_selection::{Choice, Selection};
use channels::Configuration;
use keyboard::Asked;
use keyboard_answers::Told;
use numbers::{ChannelNumber, Refusal, UnitNumber};
use packets::{Act, Acted, Answer, Leaving, Lists, Status};
use schedule::Changed;
use schedule_list::Schedule;

#[derive(Clone, Copy)]
pub struct Cell {
    pub schedule: Schedule,
    pub lists: Lists,
}

// What a call answers, and the cell then.
#[derive(Clone, Copy)]
pub struct Answered {
    pub answer: Answer,
    pub cell: Cell,
}

// What entering a deck answers, where its text ends in the lent room, and the cell then.
#[derive(Clone, Copy)]
pub struct DeckAnswer {
    pub outcome: Result<(), Refusal>,
    pub at: usize,
    pub cell: Cell,
}

// What a selection answers (with place, request and assignment, or with 20 the first candidate's ID and what it lacks),
// and the cell then.
#[derive(Clone, Copy)]
pub struct SelectAnswer {
    pub outcome: Result<(), Refusal>,
    pub selection: Selection,
    pub cell: Cell,
}

// What a keyboard message comes to: what the operator is told, and the cell then.
#[derive(Clone, Copy)]
pub struct Heeded {
    pub told: Told,
    pub cell: Cell,
}

// What is told of a keyboard message, where its text ends in the lent room, and the cell then.
#[derive(Clone, Copy)]
pub struct KeyAnswer {
    pub told: Told,
    pub at: usize,
    pub cell: Cell,
}

// The fresh cell of a configuration: an empty schedule, no job, every unit free, down where the configuration says so;
// its codes set interlock.
pub fn fresh(configuration: Configuration) -> Cell
    ensures { result ≡ fresh_cell configuration }
{
    let channels = configuration.channels;
    let units = configuration_units::fresh(configuration);
    Cell {
        schedule: schedule_list::empty(),
        lists: lists::fresh(channels, configuration.codes, units),
    }
}

// Enters a deck: its error lines and the last line are put into the lent room, which holds all of them; a refused deck
// changes nothing.
pub fn enter(cell: Cell, deck: &[u8], out: &mut [u8; schedule_deck::ROOM]) -> DeckAnswer
    ensures { Enters cell deck.now out.old out.new result }
{
    let schedule = cell.schedule;
    let lists = cell.lists;
    let entered = schedule_deck::enter_deck(schedule, deck, out);
    let outcome = entered.outcome;
    let with_deck = entered.schedule;
    DeckAnswer {
        outcome,
        at: entered.at,
        cell: Cell {
            schedule: with_deck,
            lists,
        },
    }
}

// How a selection ends, by what is chosen.
fn outcome_of(choice: Choice) -> Result<(), Refusal>
    ensures { result ≡ outcome_of choice }
{
    match choice {
        Choice::Job => Ok(()),
        Choice::NoPlace => Err(Refusal::NoPlaceFree),
        Choice::NoCandidates => Err(Refusal::NoCandidates),
        Choice::Lacks(_) => Err(Refusal::NoAssignment),
    }
}

// Selects the first candidate in order that has an assignment and takes its job into the lowest free place; else the
// selection says why nothing is selected, with 20 what the first candidate lacks.
pub fn select(cell: Cell) -> SelectAnswer
    ensures { SelectsIn cell result }
{
    let schedule = cell.schedule;
    let lists = cell.lists;
    let taking = cell_selection::select(schedule, lists);
    let selection = taking.selection;
    let with_job = taking.schedule;
    let after = taking.lists;
    let choice = selection.choice;
    SelectAnswer {
        outcome: outcome_of(choice),
        selection,
        cell: Cell {
            schedule: with_job,
            lists: after,
        },
    }
}

// An answer of the lists, and the cell with the schedule that follows it.
fn with_schedule(acted: Acted, schedule: Schedule) -> Answered
    ensures { result ≡ record { answer = acted.answer; cell = record { schedule = schedule; lists = acted.lists } } }
{
    let answer = acted.answer;
    let lists = acted.lists;
    Answered {
        answer,
        cell: Cell { schedule, lists },
    }
}

// The schedule after a call that may have returned a job's facilities; otherwise as given.
fn left_by(leaving: Leaving, schedule: Schedule, place: u8, otherwise: Schedule) -> Schedule
    ensures { result ≡ left_by leaving schedule place otherwise }
{
    match leaving {
        Leaving::Stays => otherwise,
        Leaving::AfterNormal => schedule::returned(schedule, place, false),
        Leaving::AfterError => schedule::returned(schedule, place, true),
    }
}

// The schedule after a call that the request lists answered so: the request of a job whose facilities returned goes or
// is suspended, that of a job that has ended is closing.
pub fn follow(schedule: Schedule, answer: Answer) -> Schedule
    ensures { result ≡ followed schedule answer }
{
    match answer {
        Answer::Done | Answer::Started(_) | Answer::Refused(_) => schedule,
        Answer::Completed(place, _, leaving) => left_by(leaving, schedule, place, schedule),
        Answer::Closed(place, leaving) => {
            let closing = schedule::closing(schedule, place);
            left_by(leaving, schedule, place, closing)
        }
    }
}

// A call on packets, jobs, units or marks.
pub fn act(cell: Cell, act: Act) -> Answered
    ensures { result ≡ acted cell act }
{
    let lists = cell.lists;
    let schedule = cell.schedule;
    let acted = lists::act(lists, act);
    let answer = acted.answer;
    with_schedule(acted, follow(schedule, answer))
}

// The down mark of a unit, which a keyboard message sets or clears; the schedule stays. It goes to `lists::mark`, so that
// a program makes the calls of `lists::act` at one place: the compiler folds copies of the lists only there.
fn mark_down(cell: Cell, channel: ChannelNumber, unit: UnitNumber, on: bool) -> Answered
    ensures { result ≡ acted cell (Mark channel unit Down on) }
{
    let lists = cell.lists;
    let schedule = cell.schedule;
    with_schedule(
        lists::mark(lists, channel, unit, units::Mark::Down, on),
        schedule,
    )
}

// How a call that only changes the schedule ends.
fn answer_of(outcome: Result<(), Refusal>) -> Answer
    ensures { result ≡ answer_of outcome }
{
    match outcome {
        Ok(()) => Answer::Done,
        Err(refusal) => Answer::Refused(refusal),
    }
}

// What a call that changed the schedule answers, and the cell with that schedule.
fn with_change(changed: Changed, lists: Lists) -> Answered
    ensures { result ≡ record { answer = answer_of changed.outcome; cell = cell_of changed.schedule lists } }
{
    let outcome = changed.outcome;
    let schedule = changed.schedule;
    Answered {
        answer: answer_of(outcome),
        cell: Cell { schedule, lists },
    }
}

// A suspended request waits again.
pub fn release(cell: Cell, id: [u8; 6]) -> Answered
    ensures { result ≡ releasing cell id }
{
    let schedule = cell.schedule;
    let lists = cell.lists;
    with_change(schedule::release(schedule, id), lists)
}

// A request whose job neither runs nor closes is taken out of the schedule.
pub fn delete(cell: Cell, id: [u8; 6]) -> Answered
    ensures { result ≡ deleting cell id }
{
    let schedule = cell.schedule;
    let lists = cell.lists;
    with_change(schedule::delete(schedule, id), lists)
}

// The status of a packet of a place.
pub fn status(cell: Cell, place: u8, packet: u8) -> Result<Status, Refusal>
    ensures { result ≡ status_of cell place packet }
{
    let lists = cell.lists;
    lists::status(lists, place, packet)
}

// What a call answered, told to the operator, and its cell.
fn called(answered: Answered) -> Heeded
    ensures { result ≡ called answered }
{
    let answer = answered.answer;
    let cell = answered.cell;
    Heeded {
        told: Ok(answer),
        cell,
    }
}

// Does what a message asks for; an unknown one, and one with a fault in a field, changes nothing.
fn heed(cell: Cell, asks: Asked, id: [u8; 6]) -> Heeded
    ensures { result ≡ heeded cell asks id }
{
    match asks {
        Asked::Unknown => Heeded {
            told: Ok(Answer::Refused(Refusal::UnknownMessage)),
            cell,
        },
        Asked::Wrong(_, fault) => Heeded {
            told: Err(fault),
            cell,
        },
        Asked::Mark(channel, unit, on) => called(mark_down(cell, channel, unit, on)),
        Asked::Release => called(release(cell, id)),
        Asked::Delete => called(delete(cell, id)),
    }
}

// A keyboard message: it does what the call does that it is, and its answer is put into the lent room, which holds
// every answer.
pub fn key(cell: Cell, message: &[u8], out: &mut [u8; 12]) -> KeyAnswer
    ensures { Keys cell message.now out.old out.new result }
{
    let read = keyboard::read(message);
    let asks = read.asks;
    let id = read.id;
    let heeded = heed(cell, asks, id);
    let told = heeded.told;
    let after = heeded.cell;
    KeyAnswer {
        told,
        at: keyboard_answers::put(out, asks, told),
        cell: after,
    }
}
