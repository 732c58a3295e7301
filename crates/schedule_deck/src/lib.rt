// The report of a deck, as text in lent room: the errors in deck order, the schedule, and the last good ID.
#![tactic(auto)]

ghost use Rattle.std.specs.Prelude.{◌≡◌};
ghost use Rattle.text.specs.Room.{Puts, Written};
ghost use Rattle.cards_fields.specs.Deck.{cards_of, groups_of};
ghost use Rattle.schedule_list.specs.InSchedule.{in_schedule};
ghost use Rattle.schedule_deck.specs.Report.{request_line, schedule_text, last_line, line_by, last_by};
ghost use Rattle.schedule_deck.specs.Report.{begin, report_text};
ghost use Rattle.schedule_deck.specs.Reading.{ReadAll, Noted, Reported, DeckEntered};

use cards_fields::{deck, parts};
use cards_request::{CardError, Request};
use cards_writing::put;
use numbers::Refusal;
use schedule_list::Schedule;
use text::room::Room;

// What has been read so far: the schedule, the ID that an error line shows, and the last good one.
#[derive(Clone, Copy)]
pub struct Progress {
    pub schedule: Schedule,
    pub shown: [u8; 6],
    pub last: [u8; 6],
}

// How many bytes hold every report, and what entering any deck puts.
pub const ROOM: usize = 53248;

// What entering a deck answers: a refusal and the schedule as it was, or the schedule that follows and where the text
// in the lent room ends.
// Stays: DeckEntered of specs/Reading and the cell's theorems read the schedule and the text's end beside a refusal too.
#[derive(Clone, Copy)]
pub struct Entered {
    pub outcome: Result<(), Refusal>,
    pub schedule: Schedule,
    pub at: usize,
}

// Puts the line of a request in the schedule.
fn put_request(out: &mut Room, request: Request)
    ensures { Puts out.old (request_line request) out.new }
{
    parts::put_name(out, &request.id);
    out.put_byte(b' ');
    put::put_priority(out, request);
    out.put_byte(b'\n');
}

// Puts the lines of the schedule.
fn put_schedule(out: &mut Room, schedule: &Schedule)
    ensures { Puts out.old (schedule_text (in_schedule schedule.now)) out.new }
{
    let requests = schedule.requests();
    for entry in requests {
        put_request(out, entry.request);
    }
}

// Puts the last line.
fn put_last(out: &mut Room, id: [u8; 6])
    ensures { Puts out.old (last_line id) out.new }
{
    parts::put_name(out, &id);
    out.put_bytes(b" SCH ACK\n");
}

// Puts the line of an error, nothing where there is none.
fn put_verdict(out: &mut Room, shown: [u8; 6], verdict: Result<(), CardError>)
    ensures { Puts out.old (line_by verdict shown) out.new }
{
    match verdict {
        Ok(()) => {}
        Err(error) => cards_lines::put_error(out, shown, error),
    }
}

// The last good ID: that of a request without error, else the one before.
fn last_by(verdict: Result<(), CardError>, last: [u8; 6], id: [u8; 6]) -> [u8; 6]
    ensures { result ≡ last_by verdict last id }
{
    match verdict {
        Ok(()) => id,
        Err(_) => last,
    }
}

// What has been read before the first group.
fn begin(schedule: Schedule) -> Progress
    ensures { result ≡ begin schedule }
{
    Progress {
        schedule,
        shown: *b"------",
        last: *b"------",
    }
}

// Reads the groups in turn, each as the part of the deck that starts where the last one ended. A request is judged by
// the outline that stands beside the schedule, so that one in error does not copy the schedule.
fn put_groups(out: &mut Room, part: &[u8], start: Progress) -> Progress
    ensures { ReadAll out.old start (groups_of (cards_of part.now)) out.new result }
{
    let mut schedule = start.schedule;
    let mut outline = schedule_entering::outline_of(&schedule);
    let mut shown = start.shown;
    let mut last = start.last;
    let mut from: usize = 0;
    // Stays: the step is a group's length and not one, and no iterator of std goes by groups.
    while from < part.len() {
        let group = deck::first_group(&part[from..]);
        let n = group.len();
        if n == 0 {
            return Progress {
                schedule,
                shown,
                last,
            };
        }
        let own = cards_lines::shown_by(deck::card_at(group, 0), shown);
        let reading = cards_group::read_group(group);
        let verdict = reading.verdict;
        if cards_request::is_good(verdict) {
            let request = reading.request;
            let judged = schedule_entering::judge(outline, request);
            let entered = judged.verdict;
            put_verdict(out, own, entered);
            let good = last_by(entered, last, request.id);
            last = good;
            if cards_request::is_good(entered) {
                let next = schedule_entering::placed(schedule, request, judged.from, judged.at);
                schedule = next.schedule;
                outline = next.outline;
            }
        } else {
            put_verdict(out, own, verdict);
        }
        shown = own;
        from += n;
    }
    Progress {
        schedule,
        shown,
        last,
    }
}

// The report of a deck's part before its termination card, read into an empty schedule.
fn put_report(out: &mut [u8; ROOM], part: &[u8]) -> usize
    ensures { Written out.old 0 (report_text (groups_of (cards_of part.now))) out.new result }
{
    let mut room = Room { bytes: out, at: 0 };
    let progress = put_groups(&mut room, part, begin(schedule_list::empty()));
    put_schedule(&mut room, &progress.schedule);
    put_last(&mut room, progress.last);
    room.at
}

// The errors of a deck's part before its termination card, read into a schedule, and the last line.
fn put_entered(out: &mut [u8; ROOM], part: &[u8], schedule: Schedule) -> Entered
    ensures { Noted out.old schedule (groups_of (cards_of part.now)) out.new result }
{
    let mut room = Room { bytes: out, at: 0 };
    let progress = put_groups(&mut room, part, begin(schedule));
    put_last(&mut room, progress.last);
    Entered {
        outcome: Ok(()),
        schedule: progress.schedule,
        at: room.at,
    }
}

// Puts what the deck program prints into lent room and answers its length. The room holds every report, so nothing is
// cut.
pub fn report(deck: &[u8], out: &mut [u8; ROOM]) -> usize
    ensures { Reported deck.now out.old out.new result }
{
    match deck::deck_end(deck) {
        Ok(n) => put_report(out, &deck[..n]),
        Err(refusal) => {
            let mut room = Room { bytes: out, at: 0 };
            cards_lines::put_refused(&mut room, refusal);
            room.at
        }
    }
}

// Reads a deck into a schedule and puts its error lines and the last line into lent room, which holds all of them. A
// refused deck leaves the schedule and the room as they were.
pub fn enter_deck(schedule: Schedule, deck: &[u8], out: &mut [u8; ROOM]) -> Entered
    ensures { DeckEntered schedule deck.now out.old out.new result }
{
    match deck::deck_end(deck) {
        Ok(n) => put_entered(out, &deck[..n], schedule),
        Err(refusal) => Entered {
            outcome: Err(refusal),
            schedule,
            at: 0,
        },
    }
}
