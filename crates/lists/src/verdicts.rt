// Whether a call is refused, by the parts that it reads; of a submission the crate of that name has it.
ghost use Rattle.std.specs.Prelude.{◌≡◌, not, ◌&&◌, ltb, Ok};
ghost use Rattle.numbers.specs.declared.Refusal.TheVariants.{OutOfRange, NoJob, ChannelBusy};
ghost use Rattle.numbers.specs.declared.Refusal.TheVariants.{NothingStartable, NothingInProgress, WrongCompletion, NoPlaceFree};
ghost use Rattle.packets.specs.declared.Spot.TheVariants.{OnUnit};
ghost use Rattle.packets.specs.State.{is_there_of, is_idle, is_running, is_empty};
ghost use Rattle.packets.specs.Rules.{first, is_wrong, reaches, return_refusal};
ghost use Rattle.lists.specs.Parts.{is_nowhere};

use channels::{Channel, Fitted};
use numbers::{ChannelNumber, Refusal, UnitNumber};
use packets::{Carrier, How, JobState, Packet, Spot};
use units::Unit;

// Whether nothing moves; what is no packet of the cell is nothing.
fn is_idle(motion: Option<(u8, u8)>) -> bool
    ensures { result ≡ is_idle motion }
{
    !motion.is_some_and(|(j, p)| j < 16 && p < 16)
}

fn is_nowhere(found: Option<u8>) -> bool
    ensures { result ≡ is_nowhere found }
{
    found.is_none()
}

// Whether the cell has channel c, which is this one if its number is below 16.
fn is_configured(on: Channel, c: ChannelNumber) -> bool
    ensures { result ≡ (ltb c.0 16 && is_there_of on.has) }
{
    c.0 < 16 && packets_channels::is_there(on.has)
}

// Of a start, by what the channel has and what moves on it, and by the packet that was found.
pub fn of_start(
    on: Channel,
    carrier: Carrier,
    found: Option<u8>,
    c: ChannelNumber,
) -> Result<(), Refusal>
    ensures { result ≡ first (not (ltb c.0 16 && is_there_of on.has)) OutOfRange
        (first (not (is_idle carrier.motion)) ChannelBusy (first (is_nowhere found) NothingStartable (Ok tt))) }
{
    if !is_configured(on, c) {
        return Err(Refusal::OutOfRange);
    }
    if !is_idle(carrier.motion) {
        return Err(Refusal::ChannelBusy);
    }
    if is_nowhere(found) {
        return Err(Refusal::NothingStartable);
    }
    Ok(())
}

// Of a completion, by what the channel has, what moves on it and its packet.
pub fn of_complete(
    on: Channel,
    carrier: Carrier,
    packet: Packet,
    how: How,
    c: ChannelNumber,
) -> Result<(), Refusal>
    ensures { result ≡ first (not (ltb c.0 16 && is_there_of on.has)) OutOfRange
        (first (is_idle carrier.motion) NothingInProgress (first (is_wrong packet.status how) WrongCompletion (Ok tt))) }
{
    if !is_configured(on, c) {
        return Err(Refusal::OutOfRange);
    }
    if is_idle(carrier.motion) {
        return Err(Refusal::NothingInProgress);
    }
    if packets_end::is_wrong(packet.status, how) {
        return Err(Refusal::WrongCompletion);
    }
    Ok(())
}

pub fn of_end(state: JobState, j: u8) -> Result<(), Refusal>
    ensures { result ≡ first (not (ltb j 16)) OutOfRange (first (not (is_running state)) NoJob (Ok tt)) }
{
    if 15 < j {
        return Err(Refusal::OutOfRange);
    }
    if !packets_job::is_running(state) {
        return Err(Refusal::NoJob);
    }
    Ok(())
}

pub fn of_take(state: JobState, j: u8) -> Result<(), Refusal>
    ensures { result ≡ first (not (ltb j 16 && is_empty state)) NoPlaceFree (Ok tt) }
{
    if 15 < j || !packets_job::is_empty(state) {
        return Err(Refusal::NoPlaceFree);
    }
    Ok(())
}

// Whether the cell has unit u of channel c, which has this if its number is below 16; the drum channel has no unit.
fn has_unit(has: Option<Fitted>, c: ChannelNumber, u: UnitNumber) -> bool
    ensures { result ≡ (ltb c.0 16 && reaches has (OnUnit u)) }
{
    c.0 < 16 && packets_channels::has_spot(has, Spot::OnUnit(u))
}

// Of a return, by what the channel has, the job's state and the unit.
pub fn of_return(
    has: Option<Fitted>,
    state: JobState,
    unit: Unit,
    j: u8,
    c: ChannelNumber,
    u: UnitNumber,
) -> Result<(), Refusal>
    ensures { result ≡ return_refusal has state unit j c.0 u.0 }
{
    if 15 < j || !has_unit(has, c, u) {
        return Err(Refusal::OutOfRange);
    }
    if !packets_job::is_running(state) {
        return Err(Refusal::NoJob);
    }
    if !packets_units::is_held_by(unit.holder, j) {
        return Err(Refusal::NotTheJobs);
    }
    if units::is_returning(unit.holder) {
        return Err(Refusal::BeingReturned);
    }
    Ok(())
}

pub fn of_mark(has: Option<Fitted>, c: ChannelNumber, u: UnitNumber) -> Result<(), Refusal>
    ensures { result ≡ first (not (ltb c.0 16 && reaches has (OnUnit u))) OutOfRange (Ok tt) }
{
    if !has_unit(has, c, u) {
        return Err(Refusal::OutOfRange);
    }
    Ok(())
}
