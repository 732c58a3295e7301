// The input of a shift, piece by piece: lines are taken out of the pieces and answered one after the other, and their
// answers stand in lent room one behind the other. The schedule stands by itself meanwhile: most lines are calls on the
// request lists alone, and it is not copied for these.
#![tactic(auto)]

ghost use Rattle.std.specs.Prelude.{◌≡◌, false, take};
ghost use Rattle.cell.specs.Calls.{cell_of, followed};
ghost use Rattle.schedule_list.specs.declared.Schedule.{Schedule};
ghost use Rattle.shift_turns.specs.Turns.{shift_of, Ends};
ghost use Rattle.shift_hearing.specs.Behind.{asked_in, AnswersBehind, HandlesBehind};
ghost use Rattle.shift_hearing.specs.Hearing.{standing, HearsPiece};

use cell::Cell;
use numbers::limits;
use packets::{Answer, Leaving, Lists};
use schedule_list::Schedule;
use shift_packets::Handled;
use shift_script::Line;
use shift_turns::{Phase, Shift, Turn};
use text::room::Room;

// How many bytes of a line are kept.
pub const LINE: usize = 20480;

// How many bytes the answers of a piece have room for.
pub const OUT: usize = 65536;

// So many bytes of answers leave room for one more.
const ENOUGH: usize = OUT - schedule_deck::ROOM;

// The shift after what was heard, how many bytes of the next line stand in the room for it, how many bytes of the
// piece were taken, and how many the answers have.
#[derive(Clone, Copy)]
pub struct Heard {
    pub shift: Shift,
    pub len: usize,
    pub taken: usize,
    pub at: usize,
}

// A shift of these parts.
fn shift_of(phase: Phase, schedule: Schedule, lists: Lists) -> Shift
    ensures { result ≡ shift_of phase (cell_of schedule lists) }
{
    Shift {
        phase,
        cell: Cell { schedule, lists },
    }
}

// What was heard.
fn what_was_heard(shift: Shift, len: usize, taken: usize, at: usize) -> Heard
    ensures { result ≡ record { shift = shift; len = len; taken = taken; at = at } }
{
    Heard {
        shift,
        len,
        taken,
        at,
    }
}

// What a line says while calls are answered.
fn asked(phase: Phase, line: &[u8]) -> Line
    ensures { result ≡ asked_in phase line.now }
{
    match phase {
        Phase::Talks => shift_script::read_line(line).line,
        _ => Line::NoCall,
    }
}

// Whether the schedule follows an answer. Where it does not, none is copied: that is all that this is asked for.
fn is_followed(answer: Answer) -> bool
    ensures { (result ≡ false) → (s : Schedule) → followed s answer ≡ s }
{
    matches!(
        answer,
        Answer::Completed(_, _, Leaving::AfterNormal | Leaving::AfterError) | Answer::Closed(_, _)
    )
}

// Answers one line that is a call on the request lists, and puts the answer behind those before it.
fn answer_call(
    lists: Lists,
    call: Line,
    answer: &mut [u8; schedule_deck::ROOM],
    out: &mut [u8; OUT],
    at: usize,
) -> Handled
    ensures { HandlesBehind lists call answer.old answer.new
        out.old at out.new result }
{
    let handled = shift_packets::reply(lists, call, answer);
    let after = handled.lists;
    let said = handled.answer;
    let mut behind = Room { bytes: out, at };
    behind.put_bytes(input_lines::front(answer, handled.at));
    Handled {
        lists: after,
        answer: said,
        at: behind.at,
    }
}

// Answers one line, and puts the answer behind those before it.
fn answer_line(
    shift: Shift,
    line: &[u8],
    room: &mut [u8; limits::DECK_BYTES],
    answer: &mut [u8; schedule_deck::ROOM],
    out: &mut [u8; OUT],
    at: usize,
) -> Turn
    ensures { AnswersBehind shift line.now room.old room.new
        answer.old answer.new out.old at out.new result }
{
    let turn = shift_turns::take_line(shift, line, room, answer);
    let after = turn.shift;
    let mut behind = Room { bytes: out, at };
    behind.put_bytes(input_lines::front(answer, turn.at));
    Turn {
        shift: after,
        at: behind.at,
    }
}

// Answers the lines of a piece of the input, `len` bytes of whose first came before; what is left of the piece when the
// answers leave no room for another is for the next call. No room is cleared. A line that is longer than its room is
// cut off there, which changes no answer: one of over 16,384 bytes is no call and no echo, and makes a deck too long.
pub fn hear(
    first: Shift,
    len: usize,
    piece: &[u8],
    line: &mut [u8; LINE],
    room: &mut [u8; limits::DECK_BYTES],
    answer: &mut [u8; schedule_deck::ROOM],
    out: &mut [u8; OUT],
) -> Heard
    ensures { HearsPiece (standing first len line.old room.old answer.old)
        piece.now out.old
        (standing result.shift result.len line.new room.new answer.new)
        result.taken result.at out.new }
{
    let mut phase = first.phase;
    let cell = first.cell;
    let mut schedule = cell.schedule;
    let mut lists = cell.lists;
    let mut kept = len;
    let mut taken: usize = 0;
    let mut at: usize = 0;
    // Stays: a turn takes the rest of a line that may have begun in an earlier piece, and std's lines begin in the text.
    while taken < piece.len() && at <= ENOUGH {
        let cut = input_lines::take_up(line, kept, &piece[taken..]);
        taken += cut.taken;
        kept = cut.kept;
        if cut.whole {
            let call = asked(phase, input_lines::front(line, kept));
            if shift_packets::is_for_lists(call) {
                let handled = answer_call(lists, call, answer, out, at);
                let said = handled.answer;
                lists = handled.lists;
                at = handled.at;
                if is_followed(said) {
                    schedule = cell::follow(schedule, said);
                }
            } else {
                let now = shift_of(phase, schedule, lists);
                let turn = answer_line(now, input_lines::front(line, kept), room, answer, out, at);
                let next = turn.shift;
                let after = next.cell;
                phase = next.phase;
                schedule = after.schedule;
                lists = after.lists;
                at = turn.at;
            }
            kept = 0;
        }
    }
    what_was_heard(shift_of(phase, schedule, lists), kept, taken, at)
}

// The end of the input, after `len` bytes of a last line, and how many bytes the answer to it has.
pub fn finish(
    shift: Shift,
    len: usize,
    line: &[u8; LINE],
    room: &mut [u8; limits::DECK_BYTES],
    answer: &mut [u8; schedule_deck::ROOM],
) -> usize
    ensures { Ends shift.phase shift.cell (take len line.now) room.old room.new
        answer.old answer.new result }
{
    shift_turns::end_of_input(shift, input_lines::front(line, len), room, answer)
}
