// How many units are assignable, by kind and channel: the one look at the units that a selection takes.
#![tactic(auto)]

ghost use Rattle.std.specs.Prelude.{◌≡◌, ◌<◌};
ghost use Rattle.units.specs.State.{Square};
ghost use Rattle.assign_counts.specs.Assignable.{order_in, AssignableOn, Counted};

use assign_channels::ByChannel;
use channels::Channel;
use numbers::ChannelNumber;
use units::{Unit, Units};

// The number of assignable units of each kind but the drum, kinds in the written order, on every channel.
#[derive(Clone, Copy)]
pub struct Counts(pub [ByChannel; numbers::UNIT_KINDS]);

// The place in the written order of the kind that a channel has; behind the last, the drum's, where it has nothing.
fn order_on(channel: Channel) -> usize
    ensures { result ≡ order_in channel.has }
{
    match channel.has {
        Some(its) => numbers::order_of(its.kind),
        None => numbers::UNIT_KINDS,
    }
}

// How many of the first n units of a channel are assignable. Each adds 1 or 0, without a branch.
fn assignable_on(grid: [[Unit; 16]; 16], channel: ChannelNumber, n: u32) -> u8
    requires { (channel.0 < 16) × Square grid }
    ensures { AssignableOn grid channel.0 n result }
{
    let row = &grid[channel.0 as usize];
    (0..16)
        .map(|u| (u < n && units::is_assignable(row[u as usize])) as u8)
        .sum()
}

// The number of assignable units of every kind on every channel. A channel has units of one kind only.
pub fn count(units: Units, channels: [Channel; 16]) -> Counts
    ensures { Counted units.of channels result }
{
    let grid = units::grid_of(units);
    let none = ByChannel([0u8; 16]);
    let mut of = [none; numbers::UNIT_KINDS];
    for c in 0..16 {
        let channel = channels[c];
        let order = order_on(channel);
        if order < numbers::UNIT_KINDS {
            let n = channels::units_of(channel);
            of[order].0[c] = assignable_on(grid, ChannelNumber(c as u8), n);
        }
    }
    Counts(of)
}
