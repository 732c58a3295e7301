// Which requests in the schedule are candidates.
#![tactic(auto)]

ghost use Rattle.std.specs.Prelude.{◌≡◌, ◌&&◌, not};
ghost use Rattle.std.specs.List.{list_any};
ghost use Rattle.schedule_entries.specs.Entries.{key_of, lower_sequence, waiting, active, serial};
ghost use Rattle.schedule_list.specs.InSchedule.{in_schedule};
ghost use Rattle.schedule_candidates.specs.Candidates.{Marks};

use numbers::limits;
use schedule_entries::{Entry, Key};
use schedule_list::Schedule;

// Whether a job runs or closes.
fn is_running(requests: &[Entry]) -> bool
    ensures { result ≡ list_any (λ e. active e.state) requests.now }
{
    requests
        .iter()
        .any(|e| schedule_entries::is_active(e.state))
}

// Whether an S-type job runs or closes.
fn is_running_alone(requests: &[Entry]) -> bool
    ensures { result ≡ list_any (λ e. active e.state && serial e.request) requests.now }
{
    requests.iter().any(|e| schedule_entries::is_active(e.state)
        && schedule_entries::is_serial(&e.request))
}

// Whether some request has a key's letter and precedence and a lower sequence.
fn lower_stands(requests: &[Entry], key: Key) -> bool
    ensures { result ≡ list_any (λ f. lower_sequence (key_of f.request) key) requests.now }
{
    requests.iter().any(|f| schedule_entries::is_lower(schedule_entries::key_of(&f.request), key))
}

// Whether an entry is a candidate, told whether a lower sequence stands, whether an S-type job runs or closes, and
// whether any does.
fn is_candidate(entry: &Entry, lower: bool, alone: bool, runs: bool) -> bool
    ensures { result ≡ (waiting entry.now.state && (not lower && (not alone && not (serial entry.now.request && runs)))) }
{
    schedule_entries::is_waiting(entry.state)
        && !lower
        && !alone
        && !(schedule_entries::is_serial(&entry.request) && runs)
}

// The candidates marked, by index in the schedule; none past the last.
pub fn all(schedule: Schedule) -> [bool; limits::MOST_REQUESTS]
    ensures { Marks (in_schedule schedule) result }
{
    let requests = schedule.requests();
    let alone = is_running_alone(requests);
    let runs = is_running(requests);
    let mut marks = [false; limits::MOST_REQUESTS];
    for (k, entry) in requests.iter().enumerate() {
        let lower = lower_stands(requests, schedule_entries::key_of(&entry.request));
        marks[k] = is_candidate(entry, lower, alone, runs);
    }
    marks
}
