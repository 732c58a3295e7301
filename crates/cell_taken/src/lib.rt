// What the jobs in their places hold of core and drum, as the assigner asks for it, and the lowest free place.
#![tactic(auto)]

ghost use Rattle.std.specs.Prelude.{◌≡◌, map};
ghost use Rattle.numbers.specs.Limits.{blocks};
ghost use Rattle.packets.specs.State.{in_run};
ghost use Rattle.cell_taken.specs.Taken.{in_blocks, core_of, area_of, any_has, occupancy, LowestFree};

use assign_drum::Area;
use numbers::limits;
use packets::{Blocks, Core, Job};
use std::array;

// The blocks that the job of a place holds; none in an empty place, whatever the last job left there.
fn core_of(job: Job) -> Core
    ensures { result ≡ core_of job }
{
    let state = job.state;
    if packets_job::is_empty(state) {
        let none = Blocks { start: 0, count: 0 };
        return Core { ib: none, db: none };
    }
    job.core
}

// The blocks that each place holds.
fn cores(jobs: [Job; 16]) -> [Core; 16]
    ensures { result ≡ map core_of jobs }
{
    array::from_fn(|i| core_of(jobs[i]))
}

// Whether a block is one of a run's.
fn is_in_run(run: Blocks, b: u32) -> bool
    ensures { result ≡ in_run run b }
{
    let start = run.start as u32;
    let count = run.count as u32;
    if b < start {
        return false;
    }
    b < start + count
}

// Whether a block is one of a job's.
fn is_in_core(core: Core, b: u32) -> bool
    ensures { result ≡ in_blocks core b }
{
    let ib = core.ib;
    let db = core.db;
    if is_in_run(ib, b) {
        return true;
    }
    is_in_run(db, b)
}

// Whether some place holds a block.
fn is_taken(held: [Core; 16], b: u32) -> bool
    ensures { result ≡ any_has held b }
{
    for i in 0..16 {
        if is_in_core(held[i], b) {
            return true;
        }
    }
    false
}

// How many blocks core has, as many as the word has bits.
const BLOCKS: u32 = limits::BLOCKS as u32;

// The occupancy word of all blocks: a set bit is a block that some job holds. From the last block down, each bit is put
// below those before it.
fn word_of(held: [Core; 16]) -> u32
    ensures { result ≡ occupancy (any_has held) blocks }
{
    let mut word: u32 = 0;
    let mut left: u32 = BLOCKS;
    while 0 < left {
        left -= 1;
        word = word * 2;
        if is_taken(held, left) {
            word += 1;
        }
    }
    word
}

// The occupancy word of the blocks that the jobs hold.
pub fn occupied(jobs: [Job; 16]) -> u32
    ensures { result ≡ occupancy (any_has (map core_of jobs)) blocks }
{
    word_of(cores(jobs))
}

// The drum area that the job of a place holds; no words in an empty place.
fn area_of(job: Job) -> Area
    ensures { result ≡ area_of job }
{
    let state = job.state;
    if packets_job::is_empty(state) {
        return Area { start: 0, words: 0 };
    }
    Area {
        start: job.from,
        words: job.words,
    }
}

// The drum areas that the places hold.
pub fn areas(jobs: [Job; 16]) -> [Area; 16]
    ensures { result ≡ map area_of jobs }
{
    array::from_fn(|i| area_of(jobs[i]))
}

// The lowest place without a job; none where all are taken.
pub fn lowest_free(jobs: [Job; 16]) -> Option<u8>
    ensures { LowestFree jobs result }
{
    for i in 0..16 {
        let job = jobs[i];
        let state = job.state;
        if packets_job::is_empty(state) {
            return Some(i as u8);
        }
    }
    None
}
