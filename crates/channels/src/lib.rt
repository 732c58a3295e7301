// What is configured: the channels of the cell, the units that are down, and the codes that set interlock.
#![tactic(auto)]

ghost use Rattle.std.specs.Prelude.{◌≡◌};
ghost use Rattle.channels.specs.Channels.{no_channel, no_channels, units_of, channel_in, has_unit, sets_interlock};

use numbers::{ChannelNumber, Kind, UnitNumber};

// What stands on a channel: a kind with its n, units or for MD the drum's length in words.
#[derive(Clone, Copy)]
pub struct Fitted {
    pub kind: Kind,
    pub n: u32,
}

// A channel of the cell, and what it has, where it has something.
#[derive(Clone, Copy)]
pub struct Channel {
    pub has: Option<Fitted>,
}

// The channels by number, whether unit u of channel c is down, at c * 16 + u, and the codes that set interlock, bit k
// for code k.
#[derive(Clone, Copy)]
pub struct Configuration {
    pub channels: [Channel; 16],
    pub down: [bool; 256],
    pub codes: u64,
}

// A channel that has nothing.
fn no_channel() -> Channel
    ensures { result ≡ no_channel }
{
    Channel { has: None }
}

// No channel has anything.
pub fn no_channels() -> [Channel; 16]
    ensures { result ≡ no_channels }
{
    [no_channel(); 16]
}

// The channel that has a number; nothing where the cell has no such channel.
pub fn channel_at(configuration: Configuration, channel: ChannelNumber) -> Channel
    ensures { result ≡ channel_in configuration channel }
{
    let channel = configuration.channels.get(channel.0 as usize);
    channel.copied().unwrap_or(no_channel())
}

// How many units a channel has; the drum has none.
pub fn units_of(channel: Channel) -> u32
    ensures { result ≡ units_of channel }
{
    match channel.has {
        Some(fitted) if !numbers::is_drum(fitted.kind) => fitted.n,
        _ => 0,
    }
}

// Whether a channel number and a unit number are those of a configured unit; the drum has none.
pub fn has_unit(configuration: Configuration, channel: ChannelNumber, unit: UnitNumber) -> bool
    ensures { result ≡ has_unit configuration channel unit }
{
    unit.0 <= 15 && (unit.0 as u32) < units_of(channel_at(configuration, channel))
}

// Whether a failure's code is one of those that set interlock; a code over 77 octal has no bit.
pub fn sets_interlock(codes: u64, code: u8) -> bool
    ensures { result ≡ sets_interlock codes code }
{
    code <= 0o77 && (codes >> code) % 2 == 1
}
