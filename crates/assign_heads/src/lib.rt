// The units that a kind's entries get: unit u of channel c stands at c * 16 + u.
#![tactic(auto)]

ghost use Rattle.std.specs.Prelude.{◌≡◌, ℕ, ◌+◌, ◌*◌, ◌<◌};
ghost use Rattle.assign_heads.specs.Sums.{how_many};
ghost use Rattle.assign_heads.specs.Whose.{free_at, given_at};
ghost use Rattle.assign_heads.specs.Giving.{taker_of, less_of, OwnerIs, Owners, FreeCounts};
ghost use Rattle.assign_heads.specs.GaveOut.{Logical, GaveOut};
ghost use Rattle.assign_heads.specs.Serving.{Serves};

use assign_channels::{ByChannel, ByLogical};
use numbers::{ChannelNumber, LogicalChannel, UnitNumber};
use std::array;

// Whether a unit is given to an entry, and to which: the one with this logical channel.
#[derive(Clone, Copy)]
pub struct Head {
    pub to: Option<LogicalChannel>,
}

// Whether a kind's entries are served; then the channel of each, by logical channel, and to which entry each unit is
// given.
#[derive(Clone, Copy)]
pub struct Service {
    pub ok: bool,
    pub on: [ChannelNumber; 16],
    pub heads: [Head; 256],
}

// Where a unit of a channel stands.
fn index_of(channel: ChannelNumber, unit: UnitNumber) -> usize
    ensures { result ≡ channel.0 * 16 + unit.0 }
{
    (channel.0 as usize) * 16 + (unit.0 as usize)
}

// To which entry a unit of a channel is given; to nothing where the cell has no such unit.
pub fn given_at(
    heads: [Head; 256],
    channel: ChannelNumber,
    unit: UnitNumber,
) -> Option<LogicalChannel>
    ensures { result ≡ given_at heads channel unit }
{
    if 15 < channel.0 || 15 < unit.0 {
        return None;
    }
    heads[index_of(channel, unit)].to
}

// How many units of a channel are assignable. Each adds 1 or 0, without a branch.
fn free_on(free: &[bool; 256], channel: ChannelNumber) -> u8
    requires { channel.0 < 16 }
    ensures { result ≡ how_many 16 (λ (u : ℕ). free_at free.now (channel.0 * 16 + u)) }
{
    let first = index_of(channel, UnitNumber(0));
    free[first..first + 16].iter().map(|f| *f as u8).sum()
}

// The same for every channel.
fn free_counts(free: &[bool; 256]) -> ByChannel
    ensures { FreeCounts free.now result }
{
    ByChannel(array::from_fn(|c| free_on(free, ChannelNumber(c as u8))))
}

// The logical channel of the entry that has a channel; 0 where none has.
fn owner(on: [ChannelNumber; 16], wants: ByLogical, channel: ChannelNumber) -> LogicalChannel
    ensures { OwnerIs wants on channel.0 result.0 }
{
    let asked = wants.0;
    let entry = (1..16).find(|l| 0 < asked[*l] && on[*l] == channel);
    LogicalChannel(entry.unwrap_or(0) as u8)
}

// The same for every channel.
fn owners(on: [ChannelNumber; 16], wants: ByLogical) -> [LogicalChannel; 16]
    ensures { Owners wants on result }
{
    array::from_fn(|c| owner(on, wants, ChannelNumber(c as u8)))
}

// The entry that a channel's next unit goes to: its own while that lacks a unit, else logical channel 0 while that
// does.
fn taker(left: ByLogical, own: LogicalChannel) -> Option<LogicalChannel>
    requires { own.0 < 16 }
    ensures { result ≡ taker_of left own }
{
    let lacks = left.0;
    let l = own.0 as usize;
    if 0 < lacks[l] {
        return Some(own);
    }
    if 0 < lacks[0] {
        return Some(LogicalChannel(0));
    }
    None
}

// What each entry lacks after that.
fn less(left: ByLogical, taken: Option<LogicalChannel>) -> ByLogical
    ensures { result ≡ less_of left taken }
{
    let mut next = left;
    if let Some(logical) = taken {
        let l = logical.0 as usize;
        if l < 16 {
            next.0[l] = next.0[l].saturating_sub(1);
        }
    }
    next
}

// Every assignable unit in turn goes to its taker. The units of other kinds keep what they were given to.
fn give(
    free: [bool; 256],
    own: [LogicalChannel; 16],
    wants: ByLogical,
    heads: [Head; 256],
) -> [Head; 256]
    requires { Logical own }
    ensures { GaveOut free own wants heads result }
{
    let mut next = heads;
    let mut left = wants;
    for i in 0..256 {
        if free[i] {
            let to = taker(left, own[i / 16]);
            left = less(left, to);
            next[i] = Head { to };
        }
    }
    next
}

// Serves the entries of one kind, whose assignable units `free` names: the least list of channels, the lowest units
// on each, then the lowest remaining ones for logical channel 0.
pub fn serve(free: [bool; 256], wants: ByLogical, heads: [Head; 256]) -> Service
    ensures { Serves free wants heads result }
{
    let counts = free_counts(&free);
    let picks = assign_channels::choose(counts, wants);
    let on = picks.on;
    if !picks.ok {
        return Service {
            ok: false,
            on,
            heads,
        };
    }
    let own = owners(on, wants);
    let next = give(free, own, wants, heads);
    Service {
        ok: true,
        on,
        heads: next,
    }
}
