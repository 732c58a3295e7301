// Which request is selected: the first candidate in order that has an assignment, for the lowest free place; or why
// none is, and what the first candidate lacks.
#![tactic(auto)]

ghost use Rattle.std.specs.Prelude.{◌≡◌, map, ◌<◌};
ghost use Rattle.numbers.specs.Limits.{blocks};
ghost use Rattle.assign.specs.Assignment.{supply_of};
ghost use Rattle.schedule_list.specs.InSchedule.{in_schedule};
ghost use Rattle.cell_selection.specs.Selecting.{is_job, Selects, supply_in, unselected, is_taken, run_of, assignment_of, Starts, Takes};
ghost use Rattle.cell_selection.specs.Noting.{noted, picked, none_picked, Picks};

use assign::{Assigned, Part, Provision};
use assign_drum::Area;
use assign_heads::Head;
use cards_request::{Facilities, Request};
use channels::Channel;
use packets::{Assignment, Blocks, Core, Lists};
use schedule_entries::Entry;
use schedule_list::Schedule;
use units::Units;

// What is chosen: a job; or none, since no place is free, there are no candidates, or none has an assignment. Then the
// part is the first that is lacking for the first candidate.
#[derive(Clone, Copy)]
pub enum Choice {
    Job,
    NoPlace,
    NoCandidates,
    Lacks(Part),
}

// The candidates so far, of which none has an assignment: what the first of them lacks, and its index in the schedule;
// nothing where there was none.
#[derive(Clone, Copy)]
struct Noted {
    lacking: Option<Part>,
    at: usize,
}

// What is picked among the candidates: the index of a request in the schedule, and its assignment. Where none has one:
// what the first candidate lacks, and its index; nothing where there are no candidates.
#[derive(Clone, Copy)]
pub struct Pick {
    pub found: bool,
    pub lacking: Option<Part>,
    pub at: usize,
    pub assigned: Assigned,
}

// A selection: the job place, the request and its index in the schedule, and what it is given. Where nothing is
// selected these are blank, and where no candidate has an assignment `first` is the first candidate's ID.
#[derive(Clone, Copy)]
pub struct Selection {
    pub choice: Choice,
    pub first: [u8; 6],
    pub place: u8,
    pub at: usize,
    pub request: Request,
    pub assigned: Assigned,
}

// A selection, and what the schedule and the lists then hold.
#[derive(Clone, Copy)]
pub struct Taking {
    pub selection: Selection,
    pub schedule: Schedule,
    pub lists: Lists,
}

// Whether a job is chosen.
fn is_job(choice: Choice) -> bool
    ensures { result ≡ is_job choice }
{
    match choice {
        Choice::Job => true,
        Choice::NoPlace => false,
        Choice::NoCandidates => false,
        Choice::Lacks(_) => false,
    }
}

// A candidate that lacks a part is noted if it is the first.
fn note(before: Noted, part: Part, at: usize) -> Noted
    ensures { result ≡ noted before part at }
{
    let lacking = before.lacking;
    match lacking {
        None => Noted {
            lacking: Some(part),
            at,
        },
        Some(_) => before,
    }
}

// A candidate that has an assignment is picked.
fn picked(at: usize, given: Provision) -> Pick
    ensures { result ≡ picked at given }
{
    let assigned = given.assigned;
    Pick {
        found: true,
        lacking: None,
        at,
        assigned,
    }
}

// None is picked, with what was noted.
fn none_picked(noted: Noted) -> Pick
    ensures { result ≡ none_picked noted }
{
    let lacking = noted.lacking;
    Pick {
        found: false,
        lacking,
        at: noted.at,
        assigned: assign::nothing(),
    }
}

// The first candidate in order that has an assignment, or what the first of all lacks. The units are looked at once,
// and only the one found is assigned to: what another lacks is told from the counts, and is what the assigner would
// answer.
fn first_fit(
    schedule: Schedule,
    units: Units,
    occupancy: u32,
    areas: [Area; 16],
    channels: [Channel; 16],
) -> Pick
    ensures { Picks (in_schedule schedule) (supply_of units.of occupancy areas channels) result }
{
    let n = schedule_list::size(schedule);
    let may = schedule_candidates::all(schedule);
    let list = schedule.entries;
    let counts = assign_counts::count(units, channels);
    let drum = assign::drum_length(channels);
    let mut so_far = Noted {
        lacking: None,
        at: 0,
    };
    let mut k: usize = 0;
    while k < n {
        if may[k] {
            let entry = list[k];
            let request = entry.request;
            let wanted = request.facilities;
            let lacking = assign_lacking::first_lacking(counts, occupancy, areas, drum, wanted);
            let Some(part) = lacking else {
                let given = assign::assign(units, occupancy, areas, channels, request);
                return picked(k, given);
            };
            so_far = note(so_far, part, k);
        }
        k += 1;
    }
    none_picked(so_far)
}

// Nothing is selected, for a reason; and an ID, the first candidate's where it lacks something.
fn unselected(choice: Choice, first: [u8; 6]) -> Selection
    ensures { result ≡ unselected choice first }
{
    let entry = schedule_entries::blank();
    let request = entry.request;
    Selection {
        choice,
        first,
        place: 0,
        at: 0,
        request,
        assigned: assign::nothing(),
    }
}

// The first candidate in order that has an assignment in this cell, or what the first of all lacks.
fn picked_in(schedule: Schedule, lists: Lists) -> Pick
    ensures { Picks (in_schedule schedule) (supply_in lists) result }
{
    let jobs = lists.jobs;
    let units = lists.units;
    let channels = lists.channels;
    first_fit(
        schedule,
        units,
        cell_taken::occupied(jobs),
        cell_taken::areas(jobs),
        channels,
    )
}

// What is selected, or why nothing is: no place is free, else there are no candidates, else none has an assignment.
pub fn choose(schedule: Schedule, lists: Lists) -> Selection
    ensures { Selects schedule lists result }
{
    let jobs = lists.jobs;
    let no_id = [b' '; 6];
    let Some(place) = cell_taken::lowest_free(jobs) else {
        return unselected(Choice::NoPlace, no_id);
    };
    let picked = picked_in(schedule, lists);
    let entry = schedule_list::entry_at(schedule, picked.at);
    let request = entry.request;
    if picked.found {
        let assigned = picked.assigned;
        return Selection {
            choice: Choice::Job,
            first: no_id,
            place,
            at: picked.at,
            request,
            assigned,
        };
    }
    let lacking = picked.lacking;
    match lacking {
        None => unselected(Choice::NoCandidates, no_id),
        Some(part) => {
            let id = request.id;
            unselected(Choice::Lacks(part), id)
        }
    }
}

// Whether a unit is given to some entry of the job.
fn is_taken(head: Head) -> bool
    ensures { result ≡ is_taken head }
{
    let to = head.to;
    match to {
        None => false,
        Some(_) => true,
    }
}

// The units that are given.
fn units_of(heads: [Head; 256]) -> [bool; 256]
    ensures { result ≡ map is_taken heads }
{
    let mut next = [false; 256];
    let mut i: usize = 0;
    while i < 256 {
        next[i] = is_taken(heads[i]);
        i += 1;
    }
    next
}

// A run of blocks; none where none are asked for.
fn run_of(start: u32, count: u8) -> Blocks
    requires { (count ≡ 0 → ⊥) → start < blocks }
    ensures { result ≡ run_of start count }
{
    if count == 0 {
        return Blocks { start: 0, count: 0 };
    }
    Blocks {
        start: start as u8,
        count,
    }
}

// What a job is given, as the request lists take it.
fn assignment_of(wanted: Facilities, assigned: Assigned) -> Assignment
    requires { Starts wanted assigned }
    ensures { result ≡ assignment_of wanted assigned }
{
    let heads = assigned.heads;
    let ib = run_of(assigned.ib, wanted.ib);
    let db = run_of(assigned.db, wanted.db);
    Assignment {
        units: units_of(heads),
        from: assigned.drum,
        words: wanted.md,
        core: Core { ib, db },
    }
}

// Selects a request and takes its job into its place, with all facilities; where nothing is selected, schedule and
// lists stay as they are.
pub fn select(schedule: Schedule, lists: Lists) -> Taking
    ensures { Takes schedule lists result }
{
    let selection = choose(schedule, lists);
    let choice = selection.choice;
    if !is_job(choice) {
        return Taking {
            selection,
            schedule,
            lists,
        };
    }
    let request = selection.request;
    let wanted = request.facilities;
    let assigned = selection.assigned;
    let assignment = assignment_of(wanted, assigned);
    let acted = lists::take(lists, selection.place, assignment);
    let after = acted.lists;
    let next = schedule::taken(schedule, selection.at, selection.place);
    Taking {
        selection,
        schedule: next,
        lists: after,
    }
}
