// The facilities that a job gets: core, drum area, and units of each kind; or which of them is lacking first.
#![tactic(auto)]

ghost use Rattle.std.specs.Prelude.{◌≡◌};
ghost use Rattle.assign_free.specs.Assignable.{is_free_of};
ghost use Rattle.assign.specs.Assignment.{drum_length, supply_of, wants_of};
ghost use Rattle.assign.specs.Kinds.{ServesKinds};
ghost use Rattle.assign.specs.Chosen.{nothing, without, Assigns};

use assign_channels::ByLogical;
use assign_drum::Area;
use assign_heads::Head;
use cards_request::{Facilities, Request};
use channels::Channel;
use numbers::{ChannelNumber, Kind};
use units::Units;

// The channels of a kind's entries, by logical channel; 0 where there is no entry.
#[derive(Clone, Copy)]
pub struct KindChannels {
    pub on: [ChannelNumber; 16],
}

// The starts of a job's blocks and drum area, 0 where none are asked for; the channels of the entries of each kind, kinds
// in the written order; and to which entry of its channel's kind each unit is given, unit u of channel c at c * 16 + u.
#[derive(Clone, Copy)]
pub struct Assigned {
    pub ib: u32,
    pub db: u32,
    pub drum: u32,
    pub channels: [KindChannels; numbers::UNIT_KINDS],
    pub heads: [Head; 256],
}

// A part of an assignment: the core, the drum area, or the units of a kind.
#[derive(Clone, Copy)]
pub enum Part {
    Core,
    Drum,
    Units(Kind),
}

// What the assigner answers: what is lacking for an assignment, the first part that alone has no solution; and what the
// job gets where nothing is.
#[derive(Clone, Copy)]
pub struct Provision {
    pub lacking: Option<Part>,
    pub assigned: Assigned,
}

// Whether every kind is served; then as in Assigned. Else the place in the written order of the first that is not.
#[derive(Clone, Copy)]
struct Kinds {
    ok: bool,
    order: usize,
    channels: [KindChannels; numbers::UNIT_KINDS],
    heads: [Head; 256],
}

// No facility is named.
pub fn nothing() -> Assigned
    ensures { result ≡ nothing }
{
    let none = [ChannelNumber(0); 16];
    Assigned {
        ib: 0,
        db: 0,
        drum: 0,
        channels: [KindChannels { on: none }; numbers::UNIT_KINDS],
        heads: [Head { to: None }; 256],
    }
}

// The drum's length; 0 without a drum.
pub fn drum_length(channels: [Channel; 16]) -> u32
    ensures { result ≡ drum_length channels }
{
    for channel in &channels {
        if let Some(its) = channel.has {
            if numbers::is_drum(its.kind) {
                return its.n;
            }
        }
    }
    0
}

// What the entries of a kind, told by its place in the written order, ask for; nothing behind the last kind.
pub fn wants_of(wanted: Facilities, order: usize) -> ByLogical
    ensures { result ≡ wants_of wanted order }
{
    let units = wanted.units;
    let mut wants = [0u8; 16];
    if order < numbers::UNIT_KINDS {
        wants.copy_from_slice(&units[order * 16..order * 16 + 16]);
    }
    ByLogical(wants)
}

// Serves the kinds in the written order; the first that is lacking ends it. One of which nothing is asked for gets no
// channel and no unit, and its units are not looked at.
fn serve_kinds(units: Units, channels: [Channel; 16], wanted: Facilities) -> Kinds
    ensures { ServesKinds (is_free_of units.of channels) wanted result }
{
    let none = [ChannelNumber(0); 16];
    let mut chosen = [KindChannels { on: none }; numbers::UNIT_KINDS];
    let mut heads = [Head { to: None }; 256];
    for order in 0..numbers::UNIT_KINDS {
        let wants = wants_of(wanted, order);
        let asked = wants.0;
        if 0 < assign_channels::sum(asked) {
            let free = assign_free::free_units(units, channels, order);
            let service = assign_heads::serve(free, wants, heads);
            if !service.ok {
                return Kinds {
                    ok: false,
                    order,
                    channels: chosen,
                    heads,
                };
            }
            let on = service.on;
            let next = service.heads;
            chosen[order] = KindChannels { on };
            heads = next;
        }
    }
    Kinds {
        ok: true,
        order: numbers::UNIT_KINDS,
        channels: chosen,
        heads,
    }
}

// A part is lacking, and nothing is given.
fn without(part: Part) -> Provision
    ensures { result ≡ without part }
{
    Provision {
        lacking: Some(part),
        assigned: nothing(),
    }
}

// The assignment that is chosen for what a job asks for, or the first part that is lacking. The parts are looked for in
// the order core, drum, MA, MT, PR, MC, CR, PT.
fn find(
    units: Units,
    occupancy: u32,
    areas: [Area; 16],
    channels: [Channel; 16],
    wanted: Facilities,
) -> Provision
    ensures { Assigns (supply_of units.of occupancy areas channels) wanted result }
{
    let Some(pair) = assign_core::search(occupancy, wanted.ib as u32, wanted.db as u32) else {
        return without(Part::Core);
    };
    let Some(start) = assign_drum::lowest_start(areas, drum_length(channels), wanted.md) else {
        return without(Part::Drum);
    };
    let kinds = serve_kinds(units, channels, wanted);
    if !kinds.ok {
        return without(Part::Units(numbers::kind_at(kinds.order)));
    }
    let named = kinds.channels;
    let heads = kinds.heads;
    Provision {
        lacking: None,
        assigned: Assigned {
            ib: pair.0,
            db: pair.1,
            drum: start,
            channels: named,
            heads,
        },
    }
}

// The assignment that is chosen for a job request, or the first part that is lacking for it.
pub fn assign(
    units: Units,
    occupancy: u32,
    areas: [Area; 16],
    channels: [Channel; 16],
    request: Request,
) -> Provision
    ensures { Assigns (supply_of units.of occupancy areas channels) request.facilities result }
{
    let wanted = request.facilities;
    find(units, occupancy, areas, channels, wanted)
}
