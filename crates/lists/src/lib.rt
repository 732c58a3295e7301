// The calls on packets and request lists. Each but `status` takes the state by value, changes it where it stands, and
// returns it with its answer. The list's entries are lent, and units that are only looked at are taken out before the
// state is copied into `next`: so one copy of it lies between a call and the next.
#![tactic(auto)]

mod after;
mod verdicts;

ghost use Rattle.std.specs.Prelude.{◌≡◌};
ghost use Rattle.packets.specs.Rules.{Take, Do};
ghost use Rattle.packets.specs.declared.Act.TheVariants.{Submit, Start, Complete, End, Return, Mark};
ghost use Rattle.packets.specs.History.{fresh};
ghost use Rattle.lists.specs.Outcomes.{lists_of, outcome, status_in};

use channels::Channel;
use numbers::{ChannelNumber, Refusal, UnitNumber};
use packets::{Act, Acted, Answer, Assignment, Carrier, How, Lists, Site, Spot, Status};
use units::Units;

// The state of a fresh cell with these channels, codes that set interlock, and units.
pub fn fresh(channels: [Channel; 16], codes: u64, units: Units) -> Lists
    ensures { result ≡ lists_of (fresh channels codes units.of) }
{
    let jobs = [packets_job::empty(); 16];
    let list = packets_queue::empty();
    let moving = [Carrier { motion: None }; 16];
    Lists {
        channels,
        codes,
        jobs,
        list,
        moving,
        units,
    }
}

// Submission of a packet of the job in a place.
pub fn submit(
    lists: Lists,
    place: u8,
    packet: u8,
    function: u8,
    channel: ChannelNumber,
    spot: Spot,
) -> Acted
    ensures { result ≡ outcome lists (Do (Submit place packet function channel spot)) }
{
    let units = lists.units;
    let at = packets_submit::site_of(spot);
    let unit = packets_units::unit_where(units, channel, at);
    let mut next = lists;
    let c = (channel.0 % 16) as usize;
    let on = next.channels[c];
    let has = on.has;
    let mut answer = Answer::Done;
    let i = (place % 16) as usize;
    let job = next.jobs[i];
    match packets_submit::verdict(has, job, unit, place, packet, function, channel, spot) {
        Err(refusal) => answer = Answer::Refused(refusal),
        Ok(()) => {
            let unlocking = packets_submit::is_unlocking(function, unit);
            let changed = packets_submit::job_after(
                job, packet, function, channel, spot, unlocking,
            );
            next.jobs[i] = changed;
            let count = next.list.count;
            let left = after::list_of(changed, place, packet, function, &next.list.entries, count);
            next.list = left;
            if unlocking {
                let shut = next.units;
                let open = packets_units::with_lock_at(shut, channel, at, false);
                next.units = open;
            }
        }
    }
    Acted {
        lists: next,
        answer,
    }
}

// Start on a channel: of the oldest packet of the list that can start there. The list is gone through here and not in a
// function of its own, which would copy the places; units and count are read before the copy into `next`, so that the
// older state need not be kept.
pub fn start(lists: Lists, channel: ChannelNumber) -> Acted
    ensures { result ≡ outcome lists (Do (Start channel)) }
{
    let row = packets_queue::row_of(lists.units, channel);
    let count = lists.list.count;
    let mut next = lists;
    let mut answer = Answer::Done;
    let end = packets_queue::size_of(&next.list.entries, count);
    let mut found = None;
    for k in 0..end {
        let e = packets_queue::entry_at(&next.list.entries, k);
        let place = (e / 16) as usize;
        let job = next.jobs[place];
        if packets_queue::can_start(job, e, row, channel) {
            found = Some(e);
            break;
        }
    }
    let c = (channel.0 % 16) as usize;
    let on = next.channels[c];
    let carrier = next.moving[c];
    match verdicts::of_start(on, carrier, found, channel) {
        Err(refusal) => answer = Answer::Refused(refusal),
        Ok(()) => {
            let e = after::entry_of(found);
            let i = (e / 16) as usize;
            let job = next.jobs[i];
            answer = after::started(job, e);
            let changed = after::begun(job, e);
            next.jobs[i] = changed;
            let left = packets_queue::relisted(changed, e / 16, &next.list.entries, count);
            next.list = left;
            let busy = after::busy_with(e);
            next.moving[c] = busy;
        }
    }
    Acted {
        lists: next,
        answer,
    }
}

// Completion on a channel: full, cut or failed with a code.
pub fn complete(lists: Lists, channel: ChannelNumber, how: How) -> Acted
    ensures { result ≡ outcome lists (Do (Complete channel how)) }
{
    let mut next = lists;
    let mut answer = Answer::Done;
    let c = (channel.0 % 16) as usize;
    let on = next.channels[c];
    let carrier = next.moving[c];
    let j = after::place_of(carrier);
    let p = after::packet_of(carrier);
    let i = (j % 16) as usize;
    let job = next.jobs[i];
    let ps = job.packets;
    let q = packets_job::packet_in(ps, p);
    match verdicts::of_complete(on, carrier, q, how, channel) {
        Err(refusal) => answer = Answer::Refused(refusal),
        Ok(()) => {
            let idle = after::idle();
            next.moving[c] = idle;
            let moving = next.moving;
            let at = q.at;
            let breaking = packets_end::is_breaking(next.codes, how, at);
            let over = packets_end::over(job, p, how, channel, breaking, moving, j);
            let changed = over.job;
            next.jobs[i] = changed;
            let count = next.list.count;
            let left = packets_queue::relisted(changed, j, &next.list.entries, count);
            next.list = left;
            let leaving = over.leaving;
            answer = Answer::Completed(j, p, leaving);
            let units = next.units;
            let unit = packets_units::unit_where(units, channel, at);
            if after::is_changing(unit, breaking, over.done) {
                let free = after::units_of(units, channel, at, breaking, j, over.done);
                next.units = free;
            }
        }
    }
    Acted {
        lists: next,
        answer,
    }
}

// The job in a place ends, normally or in error.
pub fn end(lists: Lists, place: u8, in_error: bool) -> Acted
    ensures { result ≡ outcome lists (Do (End place in_error)) }
{
    let mut next = lists;
    let mut answer = Answer::Done;
    let i = (place % 16) as usize;
    let job = next.jobs[i];
    let state = job.state;
    match verdicts::of_end(state, place) {
        Err(refusal) => answer = Answer::Refused(refusal),
        Ok(()) => {
            let moving = next.moving;
            let shut = packets_end::closed(job, in_error, moving, place);
            let changed = shut.job;
            next.jobs[i] = changed;
            let count = next.list.count;
            let left = packets_queue::relisted(changed, place, &next.list.entries, count);
            next.list = left;
            let leaving = shut.leaving;
            answer = Answer::Closed(place, leaving);
            if shut.done {
                let units = next.units;
                let free = packets_units::released(units, place);
                next.units = free;
            }
        }
    }
    Acted {
        lists: next,
        answer,
    }
}

// The job in a place gives a unit back while it goes on with the others: the unit's listed packets end, and it is free
// at once, or when the packet that moves there completes.
pub fn return_unit(lists: Lists, place: u8, channel: ChannelNumber, unit: UnitNumber) -> Acted
    ensures { result ≡ outcome lists (Do (Return place channel unit)) }
{
    let units = lists.units;
    let was = units::unit_at(units, channel, unit);
    let mut next = lists;
    let mut answer = Answer::Done;
    let c = (channel.0 % 16) as usize;
    let on = next.channels[c];
    let has = on.has;
    let i = (place % 16) as usize;
    let job = next.jobs[i];
    let state = job.state;
    match verdicts::of_return(has, state, was, place, channel, unit) {
        Err(refusal) => answer = Answer::Refused(refusal),
        Ok(()) => {
            let changed = after::cut_at(job, channel, unit);
            next.jobs[i] = changed;
            let count = next.list.count;
            let left = packets_queue::relisted(changed, place, &next.list.entries, count);
            next.list = left;
            let carrier = next.moving[c];
            let ps = job.packets;
            let holder = after::holder_of(carrier, ps, place, channel, unit);
            let back = packets_units::with_holder_at(units, channel, Site::AtUnit(unit), holder);
            next.units = back;
        }
    }
    Acted {
        lists: next,
        answer,
    }
}

// A call on packets, jobs, units or marks.
// Stays: which call it is comes as a value of the rules, and `Do act` can't speak so of a closure in its place.
pub fn act(lists: Lists, act: Act) -> Acted
    ensures { result ≡ outcome lists (Do act) }
{
    match act {
        Act::Submit(place, packet, function, channel, spot) => {
            submit(lists, place, packet, function, channel, spot)
        }
        Act::Start(channel) => start(lists, channel),
        Act::Complete(channel, how) => complete(lists, channel, how),
        Act::End(place, in_error) => end(lists, place, in_error),
        Act::Return(place, channel, unit) => return_unit(lists, place, channel, unit),
        Act::Mark(channel, unit, which, on) => mark(lists, channel, unit, which, on),
    }
}

// A job is taken into a place with an assignment: its packets blank, its units without interlock.
pub fn take(lists: Lists, place: u8, assignment: Assignment) -> Acted
    ensures { result ≡ outcome lists (Take place assignment) }
{
    let mut next = lists;
    let mut answer = Answer::Done;
    let i = (place % 16) as usize;
    let last = next.jobs[i];
    let state = last.state;
    match verdicts::of_take(state, place) {
        Err(refusal) => answer = Answer::Refused(refusal),
        Ok(()) => {
            let core = assignment.core;
            let job = packets_job::running(assignment.from, assignment.words, core);
            next.jobs[i] = job;
            let wanted = assignment.units;
            let units = next.units;
            let held = packets_units::taken(units, place, wanted);
            next.units = held;
        }
    }
    Acted {
        lists: next,
        answer,
    }
}

// A mark of a unit is set or cleared; on the drum channel there is no unit.
pub fn mark(
    lists: Lists,
    channel: ChannelNumber,
    unit: UnitNumber,
    mark: units::Mark,
    on: bool,
) -> Acted
    ensures { result ≡ outcome lists (Do (Mark channel unit mark on)) }
{
    let mut next = lists;
    let mut answer = Answer::Done;
    let channels = next.channels;
    let has = packets_channels::fitted_on(channels, channel);
    match verdicts::of_mark(has, channel, unit) {
        Err(refusal) => answer = Answer::Refused(refusal),
        Ok(()) => {
            let units = next.units;
            let marked = after::with_mark(units, channel, unit, mark, on);
            next.units = marked;
        }
    }
    Acted {
        lists: next,
        answer,
    }
}

// The status of a packet of a place, or why it is not answered; nothing changes.
pub fn status(lists: Lists, place: u8, packet: u8) -> Result<Status, Refusal>
    ensures { result ≡ status_in lists place packet }
{
    if 15 < place || 15 < packet {
        return Err(Refusal::OutOfRange);
    }
    let job = lists.jobs[place as usize];
    Ok(packets_job::packet_in(job.packets, packet).status)
}
