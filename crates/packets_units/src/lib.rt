// Who holds the units: the interlock and the holder of one, and the units that a job is given and returns.
#![tactic(auto)]

ghost use Rattle.std.specs.Prelude.{◌≡◌, ◌&&◌};
ghost use Rattle.units.specs.State.{units_from, assignable};
ghost use Rattle.packets.specs.State.{held_by, unit_at, set_lock, set_holder, freed_at, release_all, take_all};
ghost use Rattle.packets_units.specs.Handed.{state_set, wanted_in};

use numbers::{ChannelNumber, UnitNumber};
use packets::Site;
use units::{Holder, Unit, Units};

// The unit where a packet is; the drum has none: a free one, without interlock.
pub fn unit_where(units: Units, c: ChannelNumber, at: Site) -> Unit
    ensures { result ≡ unit_at units.of c.0 at }
{
    match at {
        Site::AtUnit(u) => units::unit_at(units, c, u),
        Site::AtAddress(_) => units::fresh_unit(false),
    }
}

// The units with another state where a packet is; the drum has none.
fn with_state_at(units: Units, c: ChannelNumber, at: Site, state: Unit) -> Units
    ensures { result ≡ units_from (state_set units.of c.0 at state) }
{
    match at {
        Site::AtUnit(u) => units::with_unit(units, c, u, state),
        Site::AtAddress(_) => units,
    }
}

// The units with the interlock set or cleared where a packet is.
pub fn with_lock_at(units: Units, c: ChannelNumber, at: Site, on: bool) -> Units
    ensures { result ≡ units_from (set_lock units.of c.0 at on) }
{
    let unit = unit_where(units, c, at);
    with_state_at(
        units,
        c,
        at,
        Unit {
            interlock: on,
            ..unit
        },
    )
}

// The units with another holder where a packet is, who finds the interlock as it was.
pub fn with_holder_at(units: Units, c: ChannelNumber, at: Site, holder: Holder) -> Units
    ensures { result ≡ units_from (set_holder units.of c.0 at holder) }
{
    let unit = unit_where(units, c, at);
    with_state_at(units, c, at, Unit { holder, ..unit })
}

// The units with the one where a packet is free again if it is being returned.
pub fn freed_at(units: Units, c: ChannelNumber, at: Site) -> Units
    ensures { result ≡ units_from (freed_at units.of c.0 at) }
{
    let unit = unit_where(units, c, at);
    if units::is_returning(unit.holder) {
        return with_holder_at(units, c, at, Holder::Free);
    }
    units
}

// Whether the job in place j holds it; one that is being returned is held until then.
pub fn is_held_by(holder: Holder, j: u8) -> bool
    ensures { result ≡ held_by holder j }
{
    matches!(holder, Holder::Held(k) | Holder::Returning(k) if k == j)
}

// The units with those of the job in place j free again.
pub fn released(units: Units, j: u8) -> Units
    ensures { result ≡ units_from (release_all units.of j) }
{
    let grid = units::grid_of(units);
    let mut next = units;
    // Stays: a `map` over rows, each made by a `map`, leaves open what a call of the outer closure made of its row.
    for i in 0..256 {
        let (c, u) = (i / 16, i % 16);
        let unit = grid[c][u];
        if is_held_by(unit.holder, j) {
            let state = Unit {
                holder: Holder::Free,
                ..unit
            };
            next = units::with_unit(next, ChannelNumber(c as u8), UnitNumber(u as u8), state);
        }
    }
    next
}

// Whether a unit is taken: it is wanted and assignable.
fn is_taken(unit: Unit, wanted: bool) -> bool
    ensures { result ≡ wanted && assignable unit }
{
    wanted && units::is_assignable(unit)
}

// The units with those of an assignment that are assignable held by the job in place j, without interlock.
pub fn taken(units: Units, j: u8, wanted: [bool; 256]) -> Units
    ensures { result ≡ units_from (take_all units.of j (wanted_in wanted)) }
{
    let grid = units::grid_of(units);
    let mut next = units;
    for (i, &is_wanted) in wanted.iter().enumerate() {
        let (c, u) = (i / 16, i % 16);
        let unit = grid[c][u];
        if is_taken(unit, is_wanted) {
            let state = Unit {
                holder: Holder::Held(j),
                interlock: false,
                ..unit
            };
            next = units::with_unit(next, ChannelNumber(c as u8), UnitNumber(u as u8), state);
        }
    }
    next
}
