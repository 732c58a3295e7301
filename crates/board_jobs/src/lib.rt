// The board's lines of places and of core.
#![tactic(auto)]

ghost use Rattle.std.specs.Prelude.{◌≡◌, ◌<◌};
ghost use Rattle.std.specs.List.{find, position};
ghost use Rattle.std.specs.Option.{option_map};
ghost use Rattle.schedule_entries.specs.Entries.{in_place};
ghost use Rattle.schedule_entries.specs.declared.Entry.{Entry};
ghost use Rattle.packets.specs.declared.Job.{Job};
ghost use Rattle.packets.specs.State.{in_run, is_empty};
ghost use Rattle.text.specs.Room.{Puts};
ghost use Rattle.board_jobs.specs.Places.{job_text, place_text, id_in, places_text};
ghost use Rattle.board_jobs.specs.Blocks.{holds_block, digit, holder_in, block_byte, blocks_text, core_text};

use cards_fields::parts;
use numbers::limits;
use packets::{Blocks, Core, Job, JobState};
use schedule_entries::Entry;
use text::room::Room;

// The first request whose job is in a place.
fn request_in(entries: &[Entry], place: u8) -> Option<&Entry>
    ensures { option_map (λ e. e.now) result ≡ find (λ (e : Entry). in_place place e.state) entries.now }
{
    entries
        .iter()
        .find(|e| schedule_entries::is_in_place(e.state, place))
}

// The ID of the request whose job is in a place; blanks where there is none.
fn id_in(entries: &[Entry], place: u8) -> [u8; 6]
    ensures { result ≡ id_in entries.now place }
{
    match request_in(entries, place) {
        Some(entry) => entry.request.id,
        None => [b' '; 6],
    }
}

// Puts a place, its job's ID and what the job does.
fn put_job(out: &mut Room, place: u8, id: [u8; 6], word: &[u8])
    ensures { Puts out.old (job_text place id word.now) out.new }
{
    out.put_bytes(b"PLACE ");
    out.put_decimal(place as u64);
    out.put_byte(b' ');
    parts::put_name(out, &id);
    out.put_bytes(word);
}

// Puts the line of a place, nothing where it is empty.
fn put_place(out: &mut Room, place: u8, id: [u8; 6], state: JobState)
    ensures { Puts out.old (place_text place id state) out.new }
{
    match state {
        JobState::Empty => {}
        JobState::Running => put_job(out, place, id, b" RUNS\n"),
        JobState::ClosingNormal | JobState::ClosingError => {
            put_job(out, place, id, b" CLOSES\n")
        }
    }
}

// Puts the lines of the places that have a job, by the requests of the schedule.
pub fn put_places(out: &mut Room, jobs: [Job; 16], entries: &[Entry])
    ensures { Puts out.old (places_text jobs entries.now) out.new }
{
    for (p, job) in jobs.iter().enumerate() {
        let id = id_in(entries, p as u8);
        put_place(out, p as u8, id, job.state);
    }
}

// Whether a block is in a run.
fn is_in(run: Blocks, block: u8) -> bool
    ensures { result ≡ in_run run block }
{
    run.start <= block && (block as u32) < run.start as u32 + run.count as u32
}

// Whether a place's job holds a block.
fn holds(state: JobState, core: Core, block: u8) -> bool
    ensures { result ≡ holds_block state core block }
{
    !packets_job::is_empty(state) && (is_in(core.ib, block) || is_in(core.db, block))
}

// A place's digit in base 36.
fn digit(place: u8) -> u8
    requires { place < 16 }
    ensures { result ≡ digit place }
{
    if place < 10 {
        return b'0' + place;
    }
    b'A' + (place - 10)
}

// The lowest place whose job holds a block.
fn place_holding(jobs: &[Job], block: u8) -> Option<usize>
    ensures { result ≡ position (λ (j : Job). holds_block j.state j.core block) jobs.now }
{
    jobs.iter().position(|j| holds(j.state, j.core, block))
}

// The digit of the lowest place whose job holds a block, a point where none does.
fn holder_in(jobs: [Job; 16], block: u8) -> u8
    ensures { result ≡ holder_in 0 jobs block }
{
    match place_holding(&jobs, block) {
        Some(p) => digit(p as u8),
        None => b'.',
    }
}

// What stands for a block.
fn block_byte(jobs: [Job; 16], block: u8) -> u8
    ensures { result ≡ block_byte jobs block }
{
    if block < limits::FIRST_BLOCK {
        return b'X';
    }
    if limits::LAST_BLOCK < block {
        return b'X';
    }
    holder_in(jobs, block)
}

// Puts what stands for each of the 32 blocks.
fn put_blocks(out: &mut Room, jobs: [Job; 16])
    ensures { Puts out.old (blocks_text jobs) out.new }
{
    for b in 0..limits::BLOCKS {
        out.put_byte(block_byte(jobs, b));
    }
}

// Puts the line of core.
pub fn put_core(out: &mut Room, jobs: [Job; 16])
    ensures { Puts out.old (core_text jobs) out.new }
{
    out.put_bytes(b"CORE ");
    put_blocks(out, jobs);
    out.put_byte(b'\n');
}
