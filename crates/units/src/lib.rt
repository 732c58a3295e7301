// The state of all units of the cell.
#![tactic(auto)]

ghost use Rattle.std.specs.Prelude.{◌≡◌};
ghost use Rattle.units.specs.State.{GridOf, units_from, fresh_unit, none_held, unit_in, unit_set, is_free, is_returning, assignable, marked_unit};

use numbers::{ChannelNumber, UnitNumber};

// A unit is free or held by the job in one place; one that it holds may be being returned, and a free one is never.
#[derive(Clone, Copy, PartialEq, Eq)]
pub enum Holder {
    Free,
    Held(u8),
    Returning(u8),
}

// A unit: who holds it, its two marks, and its interlock.
#[derive(Clone, Copy, PartialEq, Eq)]
pub struct Unit {
    pub holder: Holder,
    pub down: bool,
    pub reserved: bool,
    pub interlock: bool,
}

// The two marks of a unit.
#[derive(Clone, Copy, PartialEq, Eq)]
pub enum Mark {
    Down,
    Reserved,
}

// The state of all units: an array of channels, each an array of units.
#[derive(Clone, Copy)]
pub struct Units {
    pub of: [[Unit; 16]; 16],
}

// The channels of a state.
pub fn grid_of(units: Units) -> [[Unit; 16]; 16]
    ensures { GridOf units result }
{
    units.of
}

// The state whose channels are these.
pub fn units_from(grid: [[Unit; 16]; 16]) -> Units
    ensures { result ≡ units_from grid }
{
    Units { of: grid }
}

// A unit of a fresh cell: free, without interlock, and not marked, down apart.
pub fn fresh_unit(down: bool) -> Unit
    ensures { result ≡ fresh_unit down }
{
    Unit {
        holder: Holder::Free,
        down,
        reserved: false,
        interlock: false,
    }
}

// All units free and unmarked.
pub fn none_held() -> Units
    ensures { result ≡ units_from none_held }
{
    units_from([[fresh_unit(false); 16]; 16])
}

// Unit u of channel c: here alone a unit is read by its numbers. Free and unmarked where the cell has none.
pub fn unit_at(units: Units, channel: ChannelNumber, unit: UnitNumber) -> Unit
    ensures { result ≡ unit_in units.of channel.0 unit.0 }
{
    let grid = grid_of(units);
    if channel.0 < 16 && unit.0 < 16 {
        grid[channel.0 as usize][unit.0 as usize]
    } else {
        fresh_unit(false)
    }
}

// The state with one unit changed: here alone a unit's state changes. Where the cell has no such unit
// nothing does.
pub fn with_unit(units: Units, channel: ChannelNumber, unit: UnitNumber, state: Unit) -> Units
    ensures { result ≡ units_from (unit_set units.of channel.0 unit.0 state) }
{
    let mut next = grid_of(units);
    let c = channel.0 as usize;
    let u = unit.0 as usize;
    if c < 16 && u < 16 {
        next[c][u] = state;
        units_from(next)
    } else {
        units
    }
}

// Whether a unit is free.
pub fn is_free(holder: Holder) -> bool
    ensures { result ≡ is_free holder }
{
    holder == Holder::Free
}

// Whether a unit is being returned.
pub fn is_returning(holder: Holder) -> bool
    ensures { result ≡ is_returning holder }
{
    matches!(holder, Holder::Returning(_))
}

// Whether a unit is assignable: free and unmarked.
#[tactic(auto, unfolding(crate::specs::State::assignable))]
pub fn is_assignable(unit: Unit) -> bool
    ensures { result ≡ assignable unit }
{
    !unit.down && !unit.reserved && is_free(unit.holder)
}

// A unit with one mark set or cleared.
pub fn marked_unit(unit: Unit, mark: Mark, on: bool) -> Unit
    ensures { result ≡ marked_unit mark on unit }
{
    match mark {
        Mark::Down => Unit { down: on, ..unit },
        Mark::Reserved => Unit {
            reserved: on,
            ..unit
        },
    }
}
