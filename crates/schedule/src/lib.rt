// What the calls make of the schedule: a request released or deleted; its job is taken, closes, has returned.
#![tactic(auto)]

ghost use Rattle.std.specs.Prelude.{◌≡◌};
ghost use Rattle.schedule.specs.Calls.{released, deleted, taken, closing, returned, refused, done};

use numbers::Refusal;
use schedule_entries::State;
use schedule_list::Schedule;

// What release and delete answer: a refusal and the schedule as it was, or the schedule that follows.
// Stays: the clause of a refusal (Calls: refused) speaks of the schedule, and `after` of schedule_orderly and the cell's
// theorems read it there.
#[derive(Clone, Copy)]
pub struct Changed {
    pub outcome: Result<(), Refusal>,
    pub schedule: Schedule,
}

// A refusal, and the schedule as it was.
fn refused(schedule: Schedule, refusal: Refusal) -> Changed
    ensures { result ≡ refused refusal schedule }
{
    Changed {
        outcome: Err(refusal),
        schedule,
    }
}

// The schedule that follows.
fn done(schedule: Schedule) -> Changed
    ensures { result ≡ done schedule }
{
    Changed {
        outcome: Ok(()),
        schedule,
    }
}

// Lets a suspended request wait again.
pub fn release(schedule: Schedule, id: [u8; 6]) -> Changed
    ensures { result ≡ released schedule id }
{
    let Some(k) = schedule.of_id(id) else {
        return refused(schedule, Refusal::NoSuchRequest);
    };
    if schedule_entries::is_suspended(schedule.requests()[k].state) {
        return done(schedule_list::changed_at(schedule, k, State::Waiting));
    }
    refused(schedule, Refusal::NoSuchRequest)
}

// Takes a request whose job neither runs nor closes out of the schedule.
pub fn delete(schedule: Schedule, id: [u8; 6]) -> Changed
    ensures { result ≡ deleted schedule id }
{
    let Some(k) = schedule.of_id(id) else {
        return refused(schedule, Refusal::NoSuchRequest);
    };
    if schedule_entries::is_active(schedule.requests()[k].state) {
        return refused(schedule, Refusal::JobRuns);
    }
    done(schedule_list::without(schedule, k))
}

// The job of the request at an index is taken into a place and runs.
pub fn taken(schedule: Schedule, k: usize, place: u8) -> Schedule
    ensures { result ≡ taken schedule k place }
{
    schedule_list::changed_at(schedule, k, State::Running(place))
}

// The job in a place has ended and closes.
pub fn closing(schedule: Schedule, place: u8) -> Schedule
    ensures { result ≡ closing schedule place }
{
    match schedule.of_place(place) {
        Some(k) => schedule_list::changed_at(schedule, k, State::Closing(place)),
        None => schedule,
    }
}

// The job in a place has returned: its request goes, unless the job ended in error and has a sequence.
pub fn returned(schedule: Schedule, place: u8, in_error: bool) -> Schedule
    ensures { result ≡ returned schedule place in_error }
{
    let Some(k) = schedule.of_place(place) else {
        return schedule;
    };
    if in_error && 1 <= schedule.requests()[k].request.sequence {
        return schedule_list::changed_at(schedule, k, State::Suspended);
    }
    schedule_list::without(schedule, k)
}
