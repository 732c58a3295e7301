// Completions and ends, on the parts that they read and change: the job's packets and its state, and whether its
// facilities return.
#![tactic(auto)]

ghost use Rattle.std.specs.Prelude.{◌≡◌, not, ◌&&◌};
ghost use Rattle.packets.specs.State.{is_unit, is_stopping, is_closing, any_moves};
ghost use Rattle.packets.specs.Rules.{is_wrong, code_for, is_trouble, leaving_as, closing};
ghost use Rattle.packets_end.specs.Over.{broken_for, over_packets, over_job, closed_job, ending_of};

use numbers::ChannelNumber;
use packets::{Aim, Carrier, Ending, How, Job, JobState, Leaving, Packet, Site, Status};

fn is_stopping(status: Status) -> bool
    ensures { result ≡ is_stopping status }
{
    status == Status::Stopping
}

// Cut for a packet not stopping; failure code 00, 01, 16 octal, 17 octal or over 77 octal.
pub fn is_wrong(status: Status, how: How) -> bool
    ensures { result ≡ is_wrong status how }
{
    match how {
        How::Full => false,
        How::Cut => !is_stopping(status),
        How::Failed(k) => matches!(k, 0 | 1 | 0o16 | 0o17) || 0o77 < k,
    }
}

// The code that a completion ends its packet with.
fn code_for(how: How) -> u8
    ensures { result ≡ code_for how }
{
    match how {
        How::Full => 0,
        How::Cut => 0o17,
        How::Failed(k) => k,
    }
}

// Whether a completion is a failure with one of the codes that set interlock.
fn is_trouble(codes: u64, how: How) -> bool
    ensures { result ≡ is_trouble codes how }
{
    matches!(how, How::Failed(k) if channels::sets_interlock(codes, k))
}

// Whether a completion is such a failure on a unit other than the drum, and so sets its interlock.
pub fn is_breaking(codes: u64, how: How, at: Site) -> bool
    ensures { result ≡ is_trouble codes how && is_unit at }
{
    is_trouble(codes, how) && matches!(at, Site::AtUnit(_))
}

// The packets after a failure that sets interlock where one of them is: the unit's listed ones end with 01.
fn broken(ps: [Packet; 16], c: ChannelNumber, at: Site) -> [Packet; 16]
    ensures { result ≡ broken_for ps c.0 at }
{
    match at {
        Site::AtUnit(u) => packets_job::all_changed(ps, Aim::Failing(c, u)),
        Site::AtAddress(_) => ps,
    }
}

// The job's packets after a completion of packet p on channel c; one that sets interlock ends the unit's listed packets
// with 01.
fn packets_over(ps: [Packet; 16], p: u8, how: How, c: ChannelNumber, breaking: bool) -> [Packet; 16]
    ensures { result ≡ over_packets ps p how c.0 breaking }
{
    let ended = packets_job::with_status_at(ps, p, Status::Ended(code_for(how)));
    if !breaking {
        return ended;
    }
    broken(ended, c, packets_job::packet_in(ps, p).at)
}

fn is_closing(state: JobState) -> bool
    ensures { result ≡ is_closing state }
{
    matches!(state, JobState::ClosingNormal | JobState::ClosingError)
}

// Whether a job in place j is closing and nothing of it moves.
fn is_done(state: JobState, moving: [Carrier; 16], j: u8) -> bool
    ensures { result ≡ is_closing state && not (any_moves j moving) }
{
    is_closing(state) && !packets_channels::any_moves(moving, j)
}

// After which end a closing job's facilities return.
fn leaving_as(state: JobState) -> Leaving
    ensures { result ≡ leaving_as state }
{
    match state {
        JobState::Empty | JobState::Running => Leaving::Stays,
        JobState::ClosingNormal => Leaving::AfterNormal,
        JobState::ClosingError => Leaving::AfterError,
    }
}

// The job in place j, and if it is closing and nothing of it moves, the empty place that it leaves.
fn ending(job: Job, moving: [Carrier; 16], j: u8) -> Ending
    ensures { result ≡ ending_of job moving j }
{
    if is_done(job.state, moving, j) {
        return Ending {
            job: packets_job::in_state(job, JobState::Empty),
            done: true,
            leaving: leaving_as(job.state),
        };
    }
    Ending {
        job,
        done: false,
        leaving: Leaving::Stays,
    }
}

// The job in place j after a completion of packet p on channel c, when these packets still move.
pub fn over(
    job: Job,
    p: u8,
    how: How,
    c: ChannelNumber,
    breaking: bool,
    moving: [Carrier; 16],
    j: u8,
) -> Ending
    ensures { result ≡ ending_of (over_job job p how c.0 breaking) moving j }
{
    let packets = packets_over(job.packets, p, how, c, breaking);
    ending(Job { packets, ..job }, moving, j)
}

// Normally or in error.
fn closing(in_error: bool) -> JobState
    ensures { result ≡ closing in_error }
{
    if in_error {
        JobState::ClosingError
    } else {
        JobState::ClosingNormal
    }
}

// The job in place j after its end: closing, its listed packets ended with 16 octal, those in progress stopping.
pub fn closed(job: Job, in_error: bool, moving: [Carrier; 16], j: u8) -> Ending
    ensures { result ≡ ending_of (closed_job job in_error) moving j }
{
    let packets = packets_job::all_changed(job.packets, Aim::Closing);
    let state = closing(in_error);
    ending(
        Job {
            state,
            packets,
            ..job
        },
        moving,
        j,
    )
}
