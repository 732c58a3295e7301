// What the channels have, and what moves on them.
#![tactic(auto)]

ghost use Rattle.std.specs.Prelude.{◌≡◌};
ghost use Rattle.packets.specs.State.{fitted_on, is_drum_of, is_there_of, moves, any_moves};
ghost use Rattle.packets.specs.Rules.{reaches};

use channels::{Channel, Fitted};
use numbers::ChannelNumber;
use packets::{Carrier, Spot};

// What channel c has; nothing where the cell has no such channel.
#[tactic(auto, unfolding(packets::specs::State::fitted_on))]
pub fn fitted_on(channels: [Channel; 16], c: ChannelNumber) -> Option<Fitted>
    ensures { result ≡ fitted_on channels c.0 }
{
    channels.get(c.0 as usize)?.has
}

// Whether it is the drum.
pub fn is_drum(has: Option<Fitted>) -> bool
    ensures { result ≡ is_drum_of has }
{
    has.is_some_and(|on| numbers::is_drum(on.kind))
}

// Whether it is there.
pub fn is_there(has: Option<Fitted>) -> bool
    ensures { result ≡ is_there_of has }
{
    has.is_some()
}

// Whether it has the unit, or is the drum for an address.
pub fn has_spot(has: Option<Fitted>, spot: Spot) -> bool
    ensures { result ≡ reaches has spot }
{
    has.is_some_and(|on| match spot {
        Spot::OnUnit(unit) => !numbers::is_drum(on.kind) && unit.0 <= 15 && (unit.0 as u32) < on.n,
        Spot::OnDrum(_, _) => numbers::is_drum(on.kind),
    })
}

// Whether a packet of the job in place j is what moves.
fn is_of(motion: Option<(u8, u8)>, j: u8) -> bool
    ensures { result ≡ moves j motion }
{
    motion.is_some_and(|(k, _)| k == j)
}

// Whether a packet of the job in place j moves on some channel.
pub fn any_moves(moving: [Carrier; 16], j: u8) -> bool
    ensures { result ≡ any_moves j moving }
{
    moving.iter().any(|carrier| is_of(carrier.motion, j))
}
