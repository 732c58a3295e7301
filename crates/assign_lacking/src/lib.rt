// Which part of what a job asks for is lacking first: told from the number of assignable units, the occupancy word
// and the drum areas alone, so that no unit is looked at and nothing is assigned.
#![tactic(auto)]

ghost use Rattle.numbers.specs.Decides.{Decides};
ghost use Rattle.assign.specs.Parts.{FirstOf, kinds};
ghost use Rattle.assign_lacking.specs.ByCounts.{Servable, HasUnits, LackingByCounts};

use assign::Part;
use assign_channels::{ByChannel, ByLogical};
use assign_counts::Counts;
use assign_drum::Area;
use cards_request::Facilities;
use numbers::LogicalChannel;

// Whether a kind's entries can be served: nothing is asked for, and the counts are not looked at; or there are as many
// units as they ask for together, and each with logical channel 1 to 15 can have a channel of its own.
fn has_units(counts: ByChannel, wants: ByLogical) -> bool
    ensures { Decides (Servable counts wants) result }
{
    let sum = assign_channels::sum(wants.0);
    if sum == 0 {
        return true;
    }
    if assign_channels::sum(counts.0) < sum {
        return false;
    }
    assign_channels::can_serve(counts, wants, LogicalChannel(1))
}

// The first kind whose units are lacking, in the written order.
fn lacking_kind(counts: Counts, wanted: Facilities) -> Option<Part>
    ensures { FirstOf (HasUnits counts wanted) kinds result }
{
    let by_kind = counts.0;
    for order in 0..numbers::UNIT_KINDS {
        let there = by_kind[order];
        if !has_units(there, assign::wants_of(wanted, order)) {
            return Some(Part::Units(numbers::kind_at(order)));
        }
    }
    None
}

// The first part that is lacking, in the order core, drum, MA, MT, PR, MC, CR, PT, on a drum of the length given.
pub fn first_lacking(
    counts: Counts,
    occupancy: u32,
    areas: [Area; 16],
    drum: u32,
    wanted: Facilities,
) -> Option<Part>
    ensures { LackingByCounts counts occupancy areas drum wanted result }
{
    let Some(_) = assign_core::search(occupancy, wanted.ib as u32, wanted.db as u32) else {
        return Some(Part::Core);
    };
    let Some(_) = assign_drum::lowest_start(areas, drum, wanted.md) else {
        return Some(Part::Drum);
    };
    lacking_kind(counts, wanted)
}
