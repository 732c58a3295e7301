// One place: its job and the job's 16 packets, each function on the part that it reads or changes.
#![tactic(auto)]

ghost use Rattle.std.specs.Prelude.{◌≡◌, map, get_or, set};
ghost use Rattle.packets.specs.declared.Site.TheVariants.{AtUnit};
ghost use Rattle.packets.specs.declared.Spot.TheVariants.{OnDrum};
ghost use Rattle.packets.specs.State.{is_empty, is_running, blank, same, with_state, with_status, restatus};
ghost use Rattle.packets.specs.Rules.{failed, cut, covers, aimed, is_at};
ghost use Rattle.packets.specs.History.{empty_place};
ghost use Rattle.packets_job.specs.Aims.{test_of, change_of, status_set, taken_job};

use numbers::{ChannelNumber, UnitNumber};
use packets::{Aim, Blocks, Core, Job, JobState, Packet, Site, Spot, Status};
use std::array;

// A packet that was never submitted.
fn blank() -> Packet
    ensures { result ≡ blank }
{
    Packet {
        status: Status::Blank,
        function: 0,
        channel: ChannelNumber(0),
        at: Site::AtUnit(UnitNumber(0)),
    }
}

// A place where no job has been.
pub fn empty() -> Job
    ensures { result ≡ empty_place }
{
    let none = Blocks { start: 0, count: 0 };
    Job {
        state: JobState::Empty,
        packets: [blank(); 16],
        from: 0,
        words: 0,
        core: Core { ib: none, db: none },
    }
}

// A job that has just been taken: its packets blank, its drum area and core.
pub fn running(from: u32, words: u32, core: Core) -> Job
    ensures { result ≡ taken_job from words core }
{
    Job {
        state: JobState::Running,
        packets: [blank(); 16],
        from,
        words,
        core,
    }
}

// Whether no job is in a place.
pub fn is_empty(state: JobState) -> bool
    ensures { result ≡ is_empty state }
{
    state == JobState::Empty
}

// Whether a job is in a place and runs.
pub fn is_running(state: JobState) -> bool
    ensures { result ≡ is_running state }
{
    state == JobState::Running
}

// The job in another state.
pub fn in_state(job: Job, state: JobState) -> Job
    ensures { result ≡ with_state job state }
{
    Job { state, ..job }
}

// Packet p of a job; blank where a job has none.
pub fn packet_in(ps: [Packet; 16], p: u8) -> Packet
    ensures { result ≡ get_or ps p blank }
{
    ps.get(p as usize).copied().unwrap_or(blank())
}

// The packets with packet p now this.
pub fn with_packet(ps: [Packet; 16], p: u8, q: Packet) -> [Packet; 16]
    ensures { result ≡ set ps p q }
{
    let mut next = ps;
    if p < 16 {
        next[p as usize] = q;
    }
    next
}

// The packet with another status.
fn with_status(p: Packet, status: Status) -> Packet
    ensures { result ≡ with_status p status }
{
    Packet { status, ..p }
}

// The packets with packet p in another status.
pub fn with_status_at(ps: [Packet; 16], p: u8, status: Status) -> [Packet; 16]
    ensures { result ≡ status_set ps p status }
{
    with_packet(ps, p, with_status(packet_in(ps, p), status))
}

// What a failure that sets interlock, or 07, does: a listed packet ends with 01.
fn failed_status(status: Status) -> Status
    ensures { result ≡ failed status }
{
    match status {
        Status::Listed => Status::Ended(1),
        _ => status,
    }
}

// What 23, a unit's return or the job's end does: a listed packet ends with 16 octal, one in progress is stopping.
fn cut_status(status: Status) -> Status
    ensures { result ≡ cut status }
{
    match status {
        Status::Listed => Status::Ended(0o16),
        Status::InProgress => Status::Stopping,
        _ => status,
    }
}

// Whether it is an address from l to h, and no unit.
fn is_between(at: Site, l: u32, h: u32) -> bool
    ensures { result ≡ covers (OnDrum l h) at }
{
    matches!(at, Site::AtAddress(x) if l <= x && x <= h)
}

// Whether a packet was submitted to a unit of channel c.
pub fn is_at(p: Packet, c: ChannelNumber, unit: UnitNumber) -> bool
    ensures { result ≡ is_at c.0 (AtUnit unit) p }
{
    p.channel == c && p.at == Site::AtUnit(unit)
}

// Whether a 23 to a unit or its return, or a 23 on the drum to the addresses from L to H, is for a packet.
fn is_aimed(p: Packet, c: ChannelNumber, spot: Spot) -> bool
    ensures { result ≡ aimed c.0 spot p }
{
    match spot {
        Spot::OnUnit(unit) => is_at(p, c, unit),
        Spot::OnDrum(l, h) => p.channel == c && is_between(p.at, l, h),
    }
}

// Whether a change is for a packet.
fn is_meant(p: Packet, aim: Aim) -> bool
    ensures { result ≡ test_of aim p }
{
    match aim {
        Aim::Failing(c, unit) => is_at(p, c, unit),
        Aim::Cutting(c, spot) => is_aimed(p, c, spot),
        Aim::Closing => true,
    }
}

// The change of a status.
fn changed_status(status: Status, aim: Aim) -> Status
    ensures { result ≡ change_of aim status }
{
    match aim {
        Aim::Failing(_, _) => failed_status(status),
        Aim::Cutting(_, _) | Aim::Closing => cut_status(status),
    }
}

// The packet, changed if the change is for it.
fn changed(p: Packet, aim: Aim) -> Packet
    ensures { result ≡ restatus (test_of aim) (change_of aim) p }
{
    if is_meant(p, aim) {
        return with_status(p, changed_status(p.status, aim));
    }
    p
}

// All packets of a job, each changed if the change is for it.
pub fn all_changed(ps: [Packet; 16], aim: Aim) -> [Packet; 16]
    ensures { result ≡ map (restatus (test_of aim) (change_of aim)) ps }
{
    array::from_fn(|i| changed(ps[i], aim))
}
