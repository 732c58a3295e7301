// What the calls answer and leave, by the parts that they change.
ghost use Rattle.std.specs.Prelude.{◌≤◌, ◌≡◌, ◌||◌, length, take, Some, None};
ghost use Rattle.units.specs.State.{is_returning, unit_in, unit_set, units_from, marked_unit};
ghost use Rattle.packets.specs.declared.Site.TheVariants.{AtUnit};
ghost use Rattle.packets.specs.State.{carrying, place_of, packet_of, relist, with_packets};
ghost use Rattle.packets.specs.declared.Status.TheVariants.{InProgress};
ghost use Rattle.packets_job.specs.Aims.{status_set};
ghost use Rattle.packets_queue.specs.Padded.{padded};
ghost use Rattle.lists.specs.Parts.{list_after, listed_as, entry_in, place_in, packet_no, started_at, units_after, cut_job, moves_in, holder_after};

use numbers::{ChannelNumber, UnitNumber};
use packets::{Aim, Answer, Begun, Carrier, Job, Packet, RequestList, Site, Spot, Status};
use units::{Holder, Unit, Units};

// The list of these entries and this count after a submission of packet p of the job in place j; any function but 07
// and 23 is listed, as the youngest.
// Stays: the entries and the count go on to `packets_queue::relisted`, whose clause speaks of any slice beside a count.
pub fn list_of(job: Job, j: u8, p: u8, f: u8, old: &[u8], count: usize) -> RequestList
    ensures { length old.now ≤ 256
        → result ≡ padded (list_after f (listed_as j p) (relist j job.packets (take count old.now))) }
{
    if packets_submit::is_listing(f) {
        return packets_queue::relisted_with(job, j, old, count, (j % 16) * 16 + p % 16);
    }
    packets_queue::relisted(job, j, old, count)
}

// The entry that was found; 0 where none was.
pub fn entry_of(found: Option<u8>) -> u8
    ensures { result ≡ entry_in found }
{
    found.unwrap_or(0)
}

// The job in the place that an entry names, whose packet is then in progress.
pub fn begun(job: Job, e: u8) -> Job
    ensures { result ≡ with_packets job (status_set job.packets (packet_of e) InProgress) }
{
    let packets = packets_job::with_status_at(job.packets, e % 16, Status::InProgress);
    Job { packets, ..job }
}

// The answer of a start: the packet of that job that the entry names.
pub fn started(job: Job, e: u8) -> Answer
    ensures { result ≡ started_at job.packets e }
{
    let q = packets_job::packet_in(job.packets, e % 16);
    Answer::Started(Begun {
        place: e / 16,
        packet: e % 16,
        function: q.function,
        at: q.at,
    })
}

// A channel on which the packet of an entry moves.
pub fn busy_with(e: u8) -> Carrier
    ensures { result ≡ carrying (Some (place_of e, packet_of e)) }
{
    Carrier {
        motion: Some((e / 16, e % 16)),
    }
}

// A channel on which nothing moves.
pub fn idle() -> Carrier
    ensures { result ≡ carrying None }
{
    Carrier { motion: None }
}

// The place of what moves; 0 where nothing does.
pub fn place_of(carrier: Carrier) -> u8
    ensures { result ≡ place_in carrier.motion }
{
    carrier.motion.map_or(0, |(j, _)| j)
}

// The number of the packet that moves; 0 where nothing does.
pub fn packet_of(carrier: Carrier) -> u8
    ensures { result ≡ packet_no carrier.motion }
{
    carrier.motion.map_or(0, |(_, p)| p)
}

// Whether a completion changes a unit: it broke, or the job is done, or the unit where the packet was is being
// returned.
pub fn is_changing(unit: Unit, breaking: bool, done: bool) -> bool
    ensures { result ≡ (breaking || (done || is_returning unit.holder)) }
{
    breaking || done || units::is_returning(unit.holder)
}

// The units after a completion: one with its interlock set if it broke, those of the job in place j free if it is
// done, and that one free if it is being returned.
pub fn units_of(
    units: Units,
    c: ChannelNumber,
    at: Site,
    breaking: bool,
    j: u8,
    done: bool,
) -> Units
    ensures { result ≡ units_from (units_after units.of c.0 at breaking j done) }
{
    let mut next = units;
    if breaking {
        next = packets_units::with_lock_at(next, c, at, true);
    }
    if done {
        next = packets_units::released(next, j);
    }
    packets_units::freed_at(next, c, at)
}

// The job whose packets at unit u of channel c are cut: its listed ones end with 16 octal, one in progress is
// stopping.
pub fn cut_at(job: Job, c: ChannelNumber, u: UnitNumber) -> Job
    ensures { result ≡ cut_job job c.0 (AtUnit u) }
{
    let packets = packets_job::all_changed(job.packets, Aim::Cutting(c, Spot::OnUnit(u)));
    Job { packets, ..job }
}

// Whether what moves on channel c is one of these packets, of the job in place j, at unit u.
fn moves_at(carrier: Carrier, ps: [Packet; 16], j: u8, c: ChannelNumber, u: UnitNumber) -> bool
    ensures { result ≡ moves_in ps j c.0 (AtUnit u) carrier.motion }
{
    match carrier.motion {
        Some((k, p)) if k == j => packets_job::is_at(packets_job::packet_in(ps, p), c, u),
        _ => false,
    }
}

// Who holds unit u of channel c when the job in place j has given it back: the job while one of its packets, which are
// these, moves there, and nobody if none does.
pub fn holder_of(
    carrier: Carrier,
    ps: [Packet; 16],
    j: u8,
    c: ChannelNumber,
    u: UnitNumber,
) -> Holder
    ensures { result ≡ holder_after ps j c.0 (AtUnit u) carrier.motion }
{
    if moves_at(carrier, ps, j, c, u) {
        return Holder::Returning(j);
    }
    Holder::Free
}

// The units with one mark of unit u of channel c set or cleared.
pub fn with_mark(
    units: Units,
    c: ChannelNumber,
    u: UnitNumber,
    mark: units::Mark,
    on: bool,
) -> Units
    ensures { result ≡ units_from (unit_set units.of c.0 u.0 (marked_unit mark on (unit_in units.of c.0 u.0))) }
{
    let unit = units::unit_at(units, c, u);
    units::with_unit(units, c, u, units::marked_unit(unit, mark, on))
}
