// Submission, on the parts that it reads and changes: whether it is refused, and the job then.
#![tactic(auto)]

ghost use Rattle.std.specs.Prelude.{◌≡◌};
ghost use Rattle.packets.specs.State.{is_busy, legal_for};
ghost use Rattle.packets.specs.Rules.{site_of, in_range, in_area, is_own, submit_refusal};
ghost use Rattle.packets_submit.specs.After.{is_listing, is_unlocking, made_for, swept_for, job_after};

use channels::Fitted;
use numbers::{ChannelNumber, Refusal};
use packets::{Aim, Job, Packet, Site, Spot, Status};
use units::{Holder, Unit};

// The unit, or the address X or L.
pub fn site_of(spot: Spot) -> Site
    ensures { result ≡ site_of spot }
{
    match spot {
        Spot::OnUnit(u) => Site::AtUnit(u),
        Spot::OnDrum(x, _) => Site::AtAddress(x),
    }
}

// Whether place, packet, function, channel and unit are in range and configured.
fn in_range(has: Option<Fitted>, j: u8, p: u8, f: u8, c: ChannelNumber, spot: Spot) -> bool
    ensures { result ≡ in_range has j p f c.0 spot }
{
    j <= 15 && p <= 15 && f <= 63 && c.0 <= 15 && packets_channels::has_spot(has, spot)
}

// Whether an address is inside the job's area.
fn in_area(job: Job, x: u32) -> bool
    ensures { result ≡ in_area job x }
{
    job.from <= x && x - job.from < job.words
}

// Whether the unit, by its holder, or the drum address is the job's; for 23 on the drum having an area is enough.
fn is_own(job: Job, holder: Holder, j: u8, f: u8, spot: Spot) -> bool
    ensures { result ≡ is_own job holder j f spot }
{
    match spot {
        Spot::OnUnit(_) => packets_units::is_held_by(holder, j),
        Spot::OnDrum(_, _) if f == 0o23 => 0 < job.words,
        Spot::OnDrum(x, _) => in_area(job, x),
    }
}

// Whether a function is legal on what the channel has.
fn is_legal(has: Option<Fitted>, f: u8) -> bool
    ensures { result ≡ legal_for has f }
{
    has.is_some_and(|on| functions::legal(on.kind, f))
}

// Listed, in progress or stopping.
fn is_busy(status: Status) -> bool
    ensures { result ≡ is_busy status }
{
    matches!(
        status,
        Status::Listed | Status::InProgress | Status::Stopping
    )
}

// Whether a submission is refused, by what the channel has, the job and the unit. The lowest number answers, but 21, for
// a unit being returned, comes after 3.
pub fn verdict(
    has: Option<Fitted>,
    job: Job,
    unit: Unit,
    j: u8,
    p: u8,
    f: u8,
    c: ChannelNumber,
    spot: Spot,
) -> Result<(), Refusal>
    ensures { result ≡ submit_refusal has job unit j p f c.0 spot }
{
    if !in_range(has, j, p, f, c, spot) {
        return Err(Refusal::OutOfRange);
    }
    if !packets_job::is_running(job.state) {
        return Err(Refusal::NoJob);
    }
    if !is_own(job, unit.holder, j, f, spot) {
        return Err(Refusal::NotTheJobs);
    }
    if units::is_returning(unit.holder) {
        return Err(Refusal::BeingReturned);
    }
    if !is_legal(has, f) {
        return Err(Refusal::NotLegal);
    }
    if is_busy(packets_job::packet_in(job.packets, p).status) {
        return Err(Refusal::PacketInUse);
    }
    Ok(())
}

// Whether 07 has an interlock to remove, by the unit.
pub fn is_unlocking(f: u8, unit: Unit) -> bool
    ensures { result ≡ is_unlocking f unit.interlock }
{
    f == 0o07 && unit.interlock
}

// Whether a function is listed: any but 07 and 23.
pub fn is_listing(f: u8) -> bool
    ensures { result ≡ is_listing f }
{
    f != 0o07 && f != 0o23
}

// The packet as it is submitted: listed, or ended with 00.
fn made(f: u8, c: ChannelNumber, at: Site) -> Packet
    ensures { result ≡ made_for f c.0 at }
{
    let status = if is_listing(f) {
        Status::Listed
    } else {
        Status::Ended(0)
    };
    Packet {
        status,
        function: f,
        channel: c,
        at,
    }
}

// The job's other packets: 07 under interlock, which only a unit has, ends the unit's listed ones with 01, 23 those
// that it is for with 16 octal.
fn swept(ps: [Packet; 16], f: u8, c: ChannelNumber, spot: Spot, unlocking: bool) -> [Packet; 16]
    ensures { result ≡ swept_for ps f c.0 spot unlocking }
{
    if unlocking {
        return match spot {
            Spot::OnUnit(u) => packets_job::all_changed(ps, Aim::Failing(c, u)),
            Spot::OnDrum(_, _) => ps,
        };
    }
    if f == 0o23 {
        return packets_job::all_changed(ps, Aim::Cutting(c, spot));
    }
    ps
}

// The job after an accepted submission of packet p.
pub fn job_after(job: Job, p: u8, f: u8, c: ChannelNumber, spot: Spot, unlocking: bool) -> Job
    ensures { result ≡ job_after job p f c.0 spot unlocking }
{
    let others = swept(job.packets, f, c, spot, unlocking);
    let packets = packets_job::with_packet(others, p, made(f, c, site_of(spot)));
    Job { packets, ..job }
}
