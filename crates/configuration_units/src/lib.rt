// The units of a configured cell when it is fresh.
#![tactic(auto)]

ghost use Rattle.std.specs.Prelude.{◌≡◌};
ghost use Rattle.units.specs.State.{units_from};
ghost use Rattle.configuration_units.specs.Fresh.{fresh_units};

use channels::Configuration;
use units::Units;

// The units of a fresh cell: free, down where the configuration says so, and not marked otherwise. Only down units are
// stored, in a local grid that becomes a state once: a state that is handed on is copied whole.
pub fn fresh(configuration: Configuration) -> Units
    ensures { result ≡ units_from (fresh_units configuration.down) }
{
    let down = configuration.down;
    let mut grid = units::grid_of(units::none_held());
    for (i, is_down) in down.iter().enumerate() {
        if *is_down {
            grid[i / 16][i % 16] = units::fresh_unit(true);
        }
    }
    units::units_from(grid)
}
