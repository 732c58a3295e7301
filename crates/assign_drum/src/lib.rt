// The drum area that a job gets: the lowest one that is free.
#![tactic(auto)]

ghost use Rattle.std.specs.Prelude.{◌+◌, ◌≤◌};
ghost use Rattle.assign_drum.specs.Drum.{LowestStart};
ghost use Rattle.numbers.specs.Decides.{Decides};
ghost use Rattle.assign_drum.specs.Blocks.{EndIs, Meets, Seen};

use numbers::limits;

// The words that a place holds, from the start on; no words where it holds none.
#[derive(Clone, Copy)]
pub struct Area {
    pub start: u32,
    pub words: u32,
}

// The lowest assignable address.
const LOWEST: u64 = limits::LOWEST_ADDRESS as u64;

// An area's end, the address after its last. It may lie past any u32.
fn end_of(a: Area) -> u64
    ensures { EndIs a result }
{
    (a.start as u64) + (a.words as u64)
}

// Whether an area shares a word with the n from s.
fn meets(a: Area, s: u64, n: u64) -> bool
    requires { s + n ≤ 4294967295 }
    ensures { Decides (Meets a s n) result }
{
    let from = a.start as u64;
    let end = end_of(a);
    from < s + n && s < end && from < end
}

// Where the first held area ends that has one of the n words from s.
fn in_the_way(held: [Area; 16], s: u64, n: u64) -> Option<u64>
    requires { s + n ≤ 4294967295 }
    ensures { Seen held s n result }
{
    let first = held.iter().find(|a| meets(**a, s, n))?;
    Some(end_of(*first))
}

// The lowest start of n free words on a drum of the size given. An area that is in the way of one start is in the way
// of every start up to its end, so the search goes on there.
pub fn lowest_start(held: [Area; 16], size: u32, n: u32) -> Option<u32>
    ensures { LowestStart held size n result }
{
    if n == 0 {
        return Some(0);
    }
    let limit = size as u64;
    let words = n as u64;
    let mut s = LOWEST;
    // Stays: the step leads to the end of an area and is not one, and no iterator of std goes by ends.
    while s + words <= limit {
        let Some(end) = in_the_way(held, s, words) else {
            return Some(s as u32);
        };
        s = end;
    }
    None
}
