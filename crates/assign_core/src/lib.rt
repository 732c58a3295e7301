// The core that a job gets: two runs of free blocks, found in the occupancy word.
#![tactic(auto)]

ghost use Rattle.std.specs.Prelude.{◌+◌, ◌≤◌};
ghost use Rattle.numbers.specs.Decides.{Decides};
ghost use Rattle.numbers.specs.Limits.{last_block};
ghost use Rattle.assign_core.specs.Core.{Run, Beside, LeastPair};

use numbers::limits;

// The first block that is assignable.
const FIRST: u32 = limits::FIRST_BLOCK as u32;

// The block behind the last that is.
const END: u32 = limits::LAST_BLOCK as u32 + 1;

// The starts of a job's two runs of blocks, IB's and DB's.
#[derive(Clone, Copy)]
pub struct Pair(pub u32, pub u32);

// Whether n blocks from a start are a run: assignable blocks, all free. A set bit of the word is a taken block.
pub fn is_run(word: u32, n: u32, from: u32) -> bool
    ensures { Decides (Run word n from) result }
{
    if from < FIRST || END < from || END - from < n {
        return false;
    }
    (from..from + n).all(|b| (word >> b) % 2 == 0)
}

// Whether db blocks from j are a run that shares no block with the ib blocks from i.
fn is_beside(word: u32, i: u32, ib: u32, db: u32, j: u32) -> bool
    requires { i + ib ≤ last_block + 1 }
    ensures { Decides (Beside word i ib db j) result }
{
    is_run(word, db, j) && (j + db <= i || i + ib <= j)
}

// The least pair of starts at which ib blocks and db blocks are free and apart.
pub fn search(word: u32, ib: u32, db: u32) -> Option<Pair>
    ensures { LeastPair word ib db result }
{
    'search: {
        for i in FIRST..=END {
            if is_run(word, ib, i) {
                for j in 0..=END {
                    // A DB that is not asked for fits anywhere.
                    if db == 0 || is_beside(word, i, ib, db, j) {
                        break 'search Some(Pair(i, j));
                    }
                }
            }
        }
        None
    }
}
