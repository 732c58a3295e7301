// The assignable units of a kind.
#![tactic(auto)]

ghost use Rattle.std.specs.Prelude.{◌≡◌};
ghost use Rattle.assign_free.specs.Assignable.{units_of_kind, FreeUnits};
ghost use Rattle.assign_free.specs.Counts.{CountsOf};

use channels::Channel;
use std::array;
use units::Units;

// Numbers of configured units by channel.
#[derive(Clone, Copy)]
struct Configured([u32; 16]);

// How many units of a kind, told by its place in the written order, a channel has.
fn units_of_kind(channel: Channel, order: usize) -> u32
    ensures { result ≡ units_of_kind order channel }
{
    match channel.has {
        Some(its) if numbers::order_of(its.kind) == order => channels::units_of(channel),
        _ => 0,
    }
}

// The same for every channel.
fn counts_of(channels: [Channel; 16], order: usize) -> Configured
    ensures { CountsOf channels order result }
{
    Configured(array::from_fn(|c| units_of_kind(channels[c], order)))
}

// Which units are of a kind, told by its place in the written order, and assignable.
pub fn free_units(units: Units, channels: [Channel; 16], order: usize) -> [bool; 256]
    ensures { FreeUnits units.of channels order result }
{
    let grid = units::grid_of(units);
    let configured = counts_of(channels, order);
    let counts = configured.0;
    array::from_fn(|i| {
        let c = i / 16;
        let u = i % 16;
        (u as u32) < counts[c] && units::is_assignable(grid[c][u])
    })
}
