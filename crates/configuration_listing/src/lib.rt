// The listing of a configuration, as text in lent room.
#![tactic(auto)]

ghost use Rattle.std.specs.Prelude.{◌≡◌, cond, ◌&&◌, [], ltb, get_or};
ghost use Rattle.text.specs.Room.{Puts};
ghost use Rattle.units.specs.State.{assignable};
ghost use Rattle.configuration_units.specs.Fresh.{fresh_units};
ghost use Rattle.configuration_listing.specs.Listing.{is_listed, fresh_count, error_text, channel_text, lines_from, answer_text, Listed};

use channels::{Channel, Configuration};
use configuration::BadLine;
use numbers::{ChannelNumber, Refusal, UnitNumber};
use text::room::Room;
use units::Unit;

// Whether a channel is listed: every configured one but the drum's.
fn is_listed(channel: Channel) -> bool
    ensures { result ≡ is_listed channel }
{
    channel
        .has
        .is_some_and(|fitted| !numbers::is_drum(fitted.kind))
}

// What a unit counts for: 1 if it is one of the channel's n and assignable.
fn count_unit(n: u32, unit: UnitNumber, state: Unit) -> u64
    ensures { result ≡ cond (ltb unit.0 n && assignable state) 1 0 }
{
    if (unit.0 as u32) < n && units::is_assignable(state) {
        1
    } else {
        0
    }
}

// How many units of a channel are assignable in the fresh cell, where they stand as in `row`: one channel's units are
// handed on, not all of them.
fn count_channel(configuration: Configuration, channel: ChannelNumber, row: [Unit; 16]) -> u64
    requires { row ≡ get_or (fresh_units configuration.down) channel.0 [] }
    ensures { result ≡ fresh_count configuration channel }
{
    let n = channels::units_of(channels::channel_at(configuration, channel));
    let mut found: u64 = 0;
    for (u, unit) in row.iter().enumerate() {
        found += count_unit(n, UnitNumber(u as u8), *unit);
    }
    found
}

// Puts the line of a bad configuration.
pub fn put_error(room: &mut Room, bad: BadLine)
    ensures { Puts room.old (error_text bad.0) room.new }
{
    room.put_bytes(b"ER ");
    room.put_decimal(numbers::number_of(Refusal::BadConfiguration) as u64);
    room.put_bytes(b" LINE ");
    room.put_decimal(bad.0 as u64);
    room.put_byte(b'\n');
}

// The line of a channel, by its units in the fresh cell.
fn put_channel(
    room: &mut Room,
    configuration: Configuration,
    channel: ChannelNumber,
    row: [Unit; 16],
)
    requires { row ≡ get_or (fresh_units configuration.down) channel.0 [] }
    ensures { Puts room.old (channel_text configuration channel) room.new }
{
    if is_listed(channels::channel_at(configuration, channel)) {
        room.put_two(channel.0);
        room.put_byte(b' ');
        room.put_decimal(count_channel(configuration, channel, row));
        room.put_byte(b'\n');
    }
}

// The lines of all channels.
fn put_lines(room: &mut Room, configuration: Configuration)
    ensures { Puts room.old (lines_from configuration 16 0) room.new }
{
    let grid = units::grid_of(configuration_units::fresh(configuration));
    for (c, row) in grid.iter().enumerate() {
        put_channel(room, configuration, ChannelNumber(c as u8), *row);
    }
}

// What a text was read as: a configuration's lines, or the line of a bad one.
fn put_answer(room: &mut Room, answer: Result<Configuration, BadLine>)
    ensures { Puts room.old (answer_text answer) room.new }
{
    match answer {
        Ok(configuration) => put_lines(room, configuration),
        Err(bad) => put_error(room, bad),
    }
}

// Puts the listing of a configuration into lent room and answers its length. 96 bytes are enough; a smaller room gets
// what fits.
pub fn listing(config: &[u8], out: &mut [u8]) -> usize
    ensures { Listed config.now out.old out.new result }
{
    let mut room = Room { bytes: out, at: 0 };
    put_answer(&mut room, configuration::read(config));
    room.at
}
