// A line of the script that is a call on the request lists: on packets, jobs, units and marks, or a packet's status. It
// is handed the request lists and not the cell, so that the schedule is not copied for
// it. The line of an answer is put here for all calls.
#![tactic(auto)]

ghost use Rattle.std.specs.Prelude.{◌≡◌};
ghost use Rattle.text.specs.Room.{Puts};
ghost use Rattle.packets.specs.declared.Answer.TheVariants.{Done};
ghost use Rattle.shift_packets.specs.Texts.{answer_text, status_answer_text, spot_on, placed};
ghost use Rattle.shift_packets.specs.OnLists.{is_for_lists, nothing_done, Tells, Gives, Handles};

use channels::Channel;
use numbers::{ChannelNumber, Refusal, UnitNumber};
use packets::{Act, Acted, Answer, Lists, Spot, Status};
use shift_script::Line;
use text::room::Room;

// The request lists after a line, what the call answered (done, for a status, refused or not, and for a line that is no
// such call), and where its text ends in the lent room.
#[derive(Clone, Copy)]
pub struct Handled {
    pub lists: Lists,
    pub answer: Answer,
    pub at: usize,
}

// Whether a line is a call on the request lists alone.
pub fn is_for_lists(call: Line) -> bool
    ensures { result ≡ is_for_lists call }
{
    matches!(call, Line::Do(_) | Line::Status(_, _))
}

// Puts the line of an answer.
pub fn put_answer(out: &mut Room, answer: Answer)
    ensures { Puts out.old (answer_text answer) out.new }
{
    match answer {
        Answer::Done | Answer::Closed(_, _) => shift_answers::put_done(out),
        Answer::Started(begun) => shift_answers::put_started(out, begun),
        Answer::Completed(place, packet, _) => shift_answers::put_completed(out, place, packet),
        Answer::Refused(refusal) => answer_pieces::put_refused(out, refusal),
    }
}

// Puts the line of a packet's status.
fn put_status(out: &mut Room, answer: Result<Status, Refusal>)
    ensures { Puts out.old (status_answer_text answer) out.new }
{
    match answer {
        Ok(status) => shift_answers::put_status(out, status),
        Err(refusal) => answer_pieces::put_refused(out, refusal),
    }
}

// Where a submission of a line goes: on the drum channel to an address or two, elsewhere to a unit. A unit number over
// 255 is out of range as 255 is.
fn spot_on(channels: [Channel; 16], channel: ChannelNumber, spot: Spot) -> Spot
    ensures { result ≡ spot_on channels channel spot }
{
    match spot {
        Spot::OnUnit(_) => spot,
        Spot::OnDrum(x, _) => {
            if packets_channels::is_drum(packets_channels::fitted_on(channels, channel)) {
                return spot;
            }
            Spot::OnUnit(UnitNumber(x.min(255) as u8))
        }
    }
}

// The call that a line is in a cell with these channels: a submission goes where the channel's kind says.
fn placed(channels: [Channel; 16], act: Act) -> Act
    ensures { result ≡ placed channels act }
{
    match act {
        Act::Submit(place, packet, function, channel, spot) => {
            let there = spot_on(channels, channel, spot);
            Act::Submit(place, packet, function, channel, there)
        }
        _ => act,
    }
}

// The answer of a call, and its request lists.
fn with_answer(out: &mut [u8], acted: Acted) -> Handled
    ensures { Gives acted out.old out.new result }
{
    let answer = acted.answer;
    let lists = acted.lists;
    let mut room = Room { bytes: out, at: 0 };
    put_answer(&mut room, answer);
    Handled {
        lists,
        answer,
        at: room.at,
    }
}

// A line that changes nothing, and where its text ends.
fn unchanged(lists: Lists, at: usize) -> Handled
    ensures { result ≡ record { lists = lists; answer = Done; at = at } }
{
    Handled {
        lists,
        answer: Answer::Done,
        at,
    }
}

// A packet's status, and the request lists as they are. They are taken over before the text is put, so that no call
// keeps them for that.
fn with_status(out: &mut [u8], lists: Lists, status: Result<Status, Refusal>) -> Handled
    ensures { Tells (status_answer_text status) (nothing_done lists) out.old out.new result }
{
    let kept = lists;
    let mut room = Room { bytes: out, at: 0 };
    put_status(&mut room, status);
    Handled {
        lists: kept,
        answer: Answer::Done,
        at: room.at,
    }
}

// The answer to a line that is a call on the request lists; any other line gets none here, and changes nothing.
pub fn reply(lists: Lists, call: Line, out: &mut [u8]) -> Handled
    ensures { Handles lists call out.old out.new result }
{
    match call {
        Line::Do(act) => {
            let channels = lists.channels;
            with_answer(out, lists::act(lists, placed(channels, act)))
        }
        Line::Status(place, packet) => {
            with_status(out, lists, lists::status(lists, place, packet))
        }
        _ => unchanged(lists, 0),
    }
}
