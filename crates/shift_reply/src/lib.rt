// What is answered to a line of the script, put into lent room, and the cell then.
#![tactic(auto)]

ghost use Rattle.std.specs.Prelude.{◌≡◌};
ghost use Rattle.text.specs.Room.{Puts};
ghost use Rattle.board.specs.Board.{board_text};
ghost use Rattle.shift_answers.specs.AnswerLines.{no_call_text};
ghost use Rattle.shift_reply.specs.Followed.{Followed};
ghost use Rattle.shift_reply.specs.Replies.{lack_text, select_text, refusal_text, echo_text, Shows, Gives};
ghost use Rattle.shift_reply.specs.Replies.{Selects, EntersDeck, KeysMessage, Replies};

use cards_fields::parts;
use cell::{Answered, Cell};
use cell_selection::{Choice, Selection};
use channels::Channel;
use numbers::Refusal;
use shift_script::{Line, Said};
use text::room::Room;

// The cell after a line, and where the answer ends in the lent room.
#[derive(Clone, Copy)]
pub struct Replied {
    pub cell: Cell,
    pub at: usize,
}

// The answer of a call, and its cell.
fn with_answer(out: &mut [u8], answered: Answered) -> Replied
    ensures { Gives answered out.old out.new result }
{
    let answer = answered.answer;
    let cell = answered.cell;
    let mut room = Room { bytes: out, at: 0 };
    shift_packets::put_answer(&mut room, answer);
    Replied { cell, at: room.at }
}

// A line that changes nothing, and where its answer ends.
fn unchanged(cell: Cell, at: usize) -> Replied
    ensures { result ≡ record { cell = cell; at = at } }
{
    Replied { cell, at }
}

// A line that is no call.
fn no_call(cell: Cell, out: &mut [u8]) -> Replied
    ensures { Shows no_call_text cell out.old out.new result }
{
    let mut room = Room { bytes: out, at: 0 };
    shift_answers::put_no_call(&mut room);
    unchanged(cell, room.at)
}

// A line echoed as it stands.
fn echo(cell: Cell, line: &[u8], out: &mut [u8]) -> Replied
    ensures { Shows (echo_text line.now) cell out.old out.new result }
{
    let mut room = Room { bytes: out, at: 0 };
    room.put_bytes(line);
    room.put_byte(b'\n');
    unchanged(cell, room.at)
}

// Puts what was lacking behind the number of a refused selection: the first candidate's ID and the part.
fn put_lack(out: &mut Room, choice: Choice, id: [u8; 6])
    ensures { Puts out.old (lack_text choice id) out.new }
{
    match choice {
        Choice::Job | Choice::NoPlace | Choice::NoCandidates => {}
        Choice::Lacks(part) => {
            out.put_byte(b' ');
            parts::put_name(out, &id);
            out.put_byte(b' ');
            shift_selected::put_part(out, part);
        }
    }
}

// Puts the line of a selection.
fn put_selection(
    out: &mut Room,
    outcome: Result<(), Refusal>,
    selection: Selection,
    channels: [Channel; 16],
)
    ensures { Puts out.old (select_text outcome selection channels) out.new }
{
    match outcome {
        Ok(()) => {
            let request = selection.request;
            let assigned = selection.assigned;
            shift_selected::put_selected(out, selection.place, request, assigned, channels);
        }
        Err(refusal) => {
            answer_pieces::put_no(out, refusal);
            put_lack(out, selection.choice, selection.first);
            out.put_byte(b'\n');
        }
    }
}

// A selection.
fn select(cell: Cell, out: &mut [u8]) -> Replied
    ensures { Selects cell out.old out.new result }
{
    let lists = cell.lists;
    let channels = lists.channels;
    let answer = cell::select(cell);
    let outcome = answer.outcome;
    let selection = answer.selection;
    let after = answer.cell;
    let mut room = Room { bytes: out, at: 0 };
    put_selection(&mut room, outcome, selection, channels);
    Replied {
        cell: after,
        at: room.at,
    }
}

// Puts the refusal of a call behind what it has put; nothing where it was done.
fn put_refusal(out: &mut Room, outcome: Result<(), Refusal>)
    ensures { Puts out.old (refusal_text outcome) out.new }
{
    if let Err(refusal) = outcome {
        answer_pieces::put_refused(out, refusal);
    }
}

// Enters a deck that has been gathered.
pub fn reply_deck(cell: Cell, deck: &[u8], out: &mut [u8; schedule_deck::ROOM]) -> Replied
    ensures { EntersDeck cell deck.now out.old out.new result }
{
    let entered = cell::enter(cell, deck, out);
    let outcome = entered.outcome;
    let after = entered.cell;
    let mut room = Room {
        bytes: out,
        at: entered.at,
    };
    put_refusal(&mut room, outcome);
    Replied {
        cell: after,
        at: room.at,
    }
}

// A call on the request lists: they answer it, and the schedule follows the answer.
fn on_lists(cell: Cell, call: Line, out: &mut [u8]) -> Replied
    ensures { Followed cell call out.old out.new result }
{
    let lists = cell.lists;
    let schedule = cell.schedule;
    let handled = shift_packets::reply(lists, call, out);
    let after = handled.lists;
    let answer = handled.answer;
    let next = cell::follow(schedule, answer);
    Replied {
        cell: Cell {
            schedule: next,
            lists: after,
        },
        at: handled.at,
    }
}

// A keyboard message, its answer and an LF.
fn key(cell: Cell, message: &[u8], out: &mut [u8]) -> Replied
    ensures { KeysMessage cell message.now out.old out.new result }
{
    let mut told = [b' '; 12];
    let answer = cell::key(cell, message, &mut told);
    let after = answer.cell;
    let at = answer.at;
    let mut reply = Room { bytes: out, at: 0 };
    reply.put_bytes(&told[..at]);
    reply.put_byte(b'\n');
    Replied {
        cell: after,
        at: reply.at,
    }
}

// The board.
fn board(cell: Cell, out: &mut [u8]) -> Replied
    ensures { Shows (board_text cell.lists cell.schedule) cell out.old out.new result }
{
    let lists = cell.lists;
    let schedule = cell.schedule;
    let mut room = Room { bytes: out, at: 0 };
    board::put(&mut room, lists, schedule);
    unchanged(cell, room.at)
}

// The answer to a line that says this.
pub fn reply_line(cell: Cell, said: Said, line: &[u8], out: &mut [u8]) -> Replied
    ensures { Replies cell said.line said.id line.now out.old out.new result }
{
    let id = said.id;
    let call = said.line;
    match call {
        Line::NoCall => no_call(cell, out),
        Line::Echo => echo(cell, line, out),
        Line::Deck => unchanged(cell, 0),
        Line::Select => select(cell, out),
        Line::Board => board(cell, out),
        Line::Do(_) => on_lists(cell, call, out),
        Line::Release => with_answer(out, cell::release(cell, id)),
        Line::Delete => with_answer(out, cell::delete(cell, id)),
        Line::Status(_, _) => on_lists(cell, call, out),
        Line::Key => key(cell, shift_script::message_in(line), out),
    }
}
