// The board's lines of units: those that are held or marked.
#![tactic(auto)]

ghost use Rattle.std.specs.Prelude.{◌≡◌, min};
ghost use Rattle.channels.specs.Channels.{units_of};
ghost use Rattle.text.specs.Room.{Puts};
ghost use Rattle.board_units.specs.Units.{held_text, holder_text, is_locked, state_text, unit_line, channel_text, units_text};

use channels::Channel;
use numbers::{ChannelNumber, UnitNumber};
use text::room::Room;
use units::{Holder, Unit, Units};

// Puts that the job in a place holds a unit.
fn put_held(out: &mut Room, place: u8)
    ensures { Puts out.old (held_text place) out.new }
{
    out.put_bytes(b" HELD ");
    out.put_decimal(place as u64);
}

// Puts who holds a unit, nothing where it is free; one that is being returned is held until then.
fn put_holder(out: &mut Room, holder: Holder)
    ensures { Puts out.old (holder_text holder) out.new }
{
    match holder {
        Holder::Free => {}
        Holder::Held(place) | Holder::Returning(place) => put_held(out, place),
    }
}

// Whether a unit's interlock is shown: it is set, and the unit held.
fn is_locked(unit: Unit) -> bool
    ensures { result ≡ is_locked unit }
{
    !units::is_free(unit.holder) && unit.interlock
}

// Puts a unit and what holds of it.
fn put_state(out: &mut Room, channel: ChannelNumber, number: UnitNumber, unit: Unit)
    ensures { Puts out.old (state_text channel.0 number.0 unit) out.new }
{
    out.put_bytes(b"UNIT ");
    answer_pieces::put_unit(out, channel, number);
    put_holder(out, unit.holder);
    let returning = units::is_returning(unit.holder);
    answer_pieces::put_word(out, returning, b" RETURNING");
    answer_pieces::put_word(out, unit.down, b" DOWN");
    answer_pieces::put_word(out, unit.reserved, b" RESERVED");
    answer_pieces::put_word(out, is_locked(unit), b" LOCKED");
    out.put_byte(b'\n');
}

// Puts the line of a unit, nothing where it is free and unmarked.
fn put_line(out: &mut Room, channel: ChannelNumber, number: UnitNumber, unit: Unit)
    ensures { Puts out.old (unit_line channel.0 number.0 unit) out.new }
{
    if units::is_assignable(unit) {
        return;
    }
    put_state(out, channel, number, unit);
}

// How many units of a channel there are lines for: those it has, 16 at most.
fn count_of(channel: Channel) -> u8
    ensures { result ≡ min (units_of channel) 16 }
{
    channels::units_of(channel).min(16) as u8
}

// Puts the lines of a channel's units.
fn put_channel(out: &mut Room, units: Units, number: ChannelNumber, channel: Channel)
    ensures { Puts out.old (channel_text units.of number.0 channel) out.new }
{
    for u in 0..count_of(channel) {
        let unit = units::unit_at(units, number, UnitNumber(u));
        put_line(out, number, UnitNumber(u), unit);
    }
}

// Puts the lines of all units that are held or marked, ascending.
pub fn put_units(out: &mut Room, channels: [Channel; 16], units: Units)
    ensures { Puts out.old (units_text channels units.of) out.new }
{
    for (c, channel) in channels.iter().enumerate() {
        put_channel(out, units, ChannelNumber(c as u8), *channel);
    }
}
