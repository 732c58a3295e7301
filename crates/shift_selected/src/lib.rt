// What a selection answers: the place, the job's ID and all that it was given; and the word for a part that is lacking.
#![tactic(auto)]

ghost use Rattle.std.specs.Prelude.{◌≡◌};
ghost use Rattle.text.specs.Room.{Puts};
ghost use Rattle.shift_selected.specs.Selected.{run_text, is_of_kind, is_to, given_text, units_text, entry_text};
ghost use Rattle.shift_selected.specs.Selected.{asked, asked_text, kind_text, areas_text, kinds_text, selected_text, part_text};

use assign::{Assigned, Part};
use assign_heads::Head;
use cards_fields::parts;
use cards_request::{Facilities, Request};
use channels::Channel;
use numbers::{ChannelNumber, Kind, LogicalChannel, UnitNumber};
use text::room::Room;

// Puts a run of blocks or words behind its code, nothing where none is asked for.
fn put_run(out: &mut Room, code: &[u8], first: u32, count: u32)
    ensures { Puts out.old (run_text code.now first count) out.new }
{
    if count != 0 {
        out.put_bytes(code);
        answer_pieces::put_span(out, first, count);
    }
}

// Whether a channel is of a kind: kinds of one row are one.
fn is_of_kind(channel: Channel, kind: Kind) -> bool
    ensures { result ≡ is_of_kind kind channel }
{
    channel
        .has
        .is_some_and(|on| numbers::row_of(on.kind) == numbers::row_of(kind))
}

// Whether a unit is given to the entry with a logical channel.
fn is_to(to: Option<LogicalChannel>, logical: LogicalChannel) -> bool
    ensures { result ≡ is_to logical to }
{
    to.is_some_and(|its| its.0 == logical.0)
}

// Puts the unit with an index, channel * 16 + unit, where it is given to an entry of its channel's kind, else nothing.
fn put_given(
    out: &mut Room,
    kind: Kind,
    logical: LogicalChannel,
    channel: Channel,
    to: Option<LogicalChannel>,
    index: u8,
)
    ensures { Puts out.old (given_text kind logical channel to index) out.new }
{
    if is_of_kind(channel, kind) && is_to(to, logical) {
        out.put_byte(b' ');
        answer_pieces::put_unit(out, ChannelNumber(index / 16), UnitNumber(index % 16));
    }
}

// Puts the units that are given to an entry.
fn put_units(
    out: &mut Room,
    kind: Kind,
    logical: LogicalChannel,
    channels: [Channel; 16],
    heads: [Head; 256],
)
    ensures { Puts out.old (units_text channels heads kind logical) out.new }
{
    for (i, head) in heads.iter().enumerate() {
        put_given(out, kind, logical, channels[i / 16], head.to, i as u8);
    }
}

// How many units an entry asks for.
fn asked_for(units: [u8; cards_request::COUNTS], kind: Kind, logical: LogicalChannel) -> u8
    ensures { result ≡ asked units kind logical }
{
    let slot = numbers::order_of(kind) * 16 + logical.0 as usize;
    units.get(slot).copied().unwrap_or(0)
}

// Puts an entry: its code, its logical channel unless that is 0, and its units.
fn put_entry(
    out: &mut Room,
    kind: Kind,
    logical: LogicalChannel,
    channels: [Channel; 16],
    heads: [Head; 256],
)
    ensures { Puts out.old (entry_text channels heads kind logical) out.new }
{
    out.put_byte(b' ');
    let code = numbers::code_of(kind);
    out.put_bytes(&code);
    if logical.0 != 0 {
        out.put_decimal(logical.0 as u64);
    }
    put_units(out, kind, logical, channels, heads);
}

// Puts an entry where units are asked for, else nothing.
fn put_asked(
    out: &mut Room,
    kind: Kind,
    logical: LogicalChannel,
    units: [u8; cards_request::COUNTS],
    channels: [Channel; 16],
    heads: [Head; 256],
)
    ensures { Puts out.old (asked_text units channels heads kind logical) out.new }
{
    if asked_for(units, kind, logical) != 0 {
        put_entry(out, kind, logical, channels, heads);
    }
}

// Puts the entries of a kind, by logical channel.
fn put_kind(
    out: &mut Room,
    kind: Kind,
    units: [u8; cards_request::COUNTS],
    channels: [Channel; 16],
    heads: [Head; 256],
)
    ensures { Puts out.old (kind_text units channels heads kind) out.new }
{
    for l in 0..16 {
        put_asked(out, kind, LogicalChannel(l), units, channels, heads);
    }
}

// Puts the core blocks and the drum area.
fn put_areas(out: &mut Room, wanted: Facilities, ib: u32, db: u32, drum: u32)
    ensures { Puts out.old (areas_text wanted ib db drum) out.new }
{
    put_run(out, b" IB ", ib, wanted.ib as u32);
    put_run(out, b" DB ", db, wanted.db as u32);
    put_run(out, b" MD ", drum, wanted.md);
}

// Puts the units of every kind that has units, in the written order.
fn put_kinds(
    out: &mut Room,
    units: [u8; cards_request::COUNTS],
    channels: [Channel; 16],
    heads: [Head; 256],
)
    ensures { Puts out.old (kinds_text units channels heads) out.new }
{
    for order in 0..numbers::UNIT_KINDS {
        put_kind(out, numbers::kind_at(order), units, channels, heads);
    }
}

// Puts the line of a selection: the job's place, its ID and its assignment, by the channels of the cell.
pub fn put_selected(
    out: &mut Room,
    place: u8,
    request: Request,
    assigned: Assigned,
    channels: [Channel; 16],
)
    ensures { Puts out.old (selected_text place request assigned channels) out.new }
{
    out.put_bytes(b"ACK ");
    out.put_decimal(place as u64);
    out.put_byte(b' ');
    let id = request.id;
    parts::put_name(out, &id);
    let wanted = request.facilities;
    put_areas(out, wanted, assigned.ib, assigned.db, assigned.drum);
    let units = wanted.units;
    let heads = assigned.heads;
    put_kinds(out, units, channels, heads);
    out.put_byte(b'\n');
}

// Puts the word for a part of an assignment.
pub fn put_part(out: &mut Room, part: Part)
    ensures { Puts out.old (part_text part) out.new }
{
    match part {
        Part::Core => out.put_bytes(b"CORE"),
        Part::Drum => out.put_bytes(b"DRUM"),
        Part::Units(kind) => {
            let code = numbers::code_of(kind);
            out.put_bytes(&code);
        }
    }
}
