// The list of the listed packets of all channels, the oldest first.
#![tactic(auto)]

ghost use Rattle.std.specs.Prelude.{◌≡◌, not, ◌||◌, [], eqb, get_or, replicate};
ghost use Rattle.packets.specs.State.{blank, is_listed, place_of, packet_of, relist, enlisted};
ghost use Rattle.packets_queue.specs.Padded.{list_of, padded, Tidy};
ghost use Rattle.packets_queue.specs.Keeping.{Within, Sized, listed, Relisted, can_start, lock_in, lock_at, RowOf};

use numbers::{ChannelNumber, UnitNumber};
use packets::{Job, Packet, RequestList, Site, Status};
use units::{Unit, Units};

// The number of a listed packet.
fn number_of(e: u8) -> usize
    ensures { Within (packet_of e) result }
{
    (e % 16) as usize
}

// A list's entries before it has any.
fn no_entries() -> [u8; 256]
    ensures { result ≡ replicate 256 0 }
{
    [0u8; 256]
}

// A list before it has any packet.
pub fn empty() -> RequestList
    ensures { result ≡ padded [] }
{
    RequestList {
        entries: no_entries(),
        count: 0,
    }
}

// How many of its entries a list with this count has; none where they are over 256, which no list of the cell has.
// Stays: `Sized` speaks of any slice beside a count, and a RequestList in their place is narrower.
pub fn size_of(entries: &[u8], count: usize) -> usize
    ensures { Sized entries.now count result }
{
    let most = entries.len();
    if 256 < most {
        return 0;
    }
    count.min(most)
}

// An entry of a list; 0 past its end. The entries are lent: none but this one is copied.
pub fn entry_at(entries: &[u8], k: usize) -> u8
    ensures { result ≡ get_or entries.now k 0 }
{
    entries.get(k).copied().unwrap_or(0)
}

fn is_listed(status: Status) -> bool
    ensures { result ≡ is_listed status }
{
    status == Status::Listed
}

// Whether an entry stays in the list after a change in place j, if its packet there has this status.
#[tactic(auto, unfolding(packets::specs::State::place_of))]
fn stays(e: u8, j: u8, status: Status) -> bool
    ensures { result ≡ not (eqb (place_of e) j) || is_listed status }
{
    e / 16 != j || is_listed(status)
}

// The list of these entries and this count without those packets of the job, which is in place j, that are no longer
// listed. The entries are lent, so that they are not copied before they are gone through.
// Stays: `Relisted` speaks of any slice beside a count, and a RequestList in their place is narrower.
pub fn relisted(job: Job, j: u8, old: &[u8], count: usize) -> RequestList
    ensures { Relisted j job.packets old.now count result }
{
    let end = size_of(old, count);
    let mut entries = no_entries();
    let mut kept: usize = 0;
    for &e in &old[..end] {
        let p = job.packets[number_of(e)];
        if stays(e, j, p.status) {
            entries[kept] = e;
            kept += 1;
        }
    }
    RequestList {
        entries,
        count: kept,
    }
}

// The list with one packet more, the youngest, where there is room.
fn with_entry(list: RequestList, e: u8) -> RequestList
    requires { Tidy list }
    ensures { result ≡ padded (enlisted (list_of list) e) }
{
    let mut next = list;
    if next.count < 256 {
        next.entries[next.count] = e;
        next.count += 1;
    }
    next
}

// The same, and with one packet more, the youngest, where there is room.
// Stays: its clause speaks of any slice beside a count, by `listed`, and a RequestList in their place is narrower.
pub fn relisted_with(job: Job, j: u8, old: &[u8], count: usize, e: u8) -> RequestList
    ensures { result ≡ padded (enlisted (relist j job.packets (listed old.now count)) e) }
{
    with_entry(relisted(job, j, old, count), e)
}

// The interlock of a unit of a channel; none where the channel has no such unit.
fn lock_in(row: [Unit; 16], u: UnitNumber) -> bool
    ensures { result ≡ lock_in row u.0 }
{
    row.get(u.0 as usize).is_some_and(|unit| unit.interlock)
}

// The interlock where a packet is; the drum has none.
fn lock_at(row: [Unit; 16], at: Site) -> bool
    ensures { result ≡ lock_at row at }
{
    matches!(at, Site::AtUnit(u) if lock_in(row, u))
}

// Whether a listed packet can start on channel c: its unit has no interlock.
fn is_startable(p: Packet, row: [Unit; 16], c: ChannelNumber) -> bool
    ensures { result ≡ can_start row c.0 p }
{
    p.channel == c && !lock_at(row, p.at)
}

// Whether the packet that an entry names, of the job in its place, can start on channel c, which has these units.
pub fn can_start(job: Job, e: u8, row: [Unit; 16], c: ChannelNumber) -> bool
    ensures { result ≡ can_start row c.0 (get_or job.packets (packet_of e) blank) }
{
    is_startable(job.packets[number_of(e)], row, c)
}

// The units of channel c; units without interlock where the cell has no such channel.
pub fn row_of(units: Units, c: ChannelNumber) -> [Unit; 16]
    ensures { RowOf units.of c.0 result }
{
    let grid = units::grid_of(units);
    match grid.get(c.0 as usize) {
        Some(row) => *row,
        None => [units::fresh_unit(false); 16],
    }
}
