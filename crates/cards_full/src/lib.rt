// A request with its further cards written into lent room.
#![tactic(auto)]

mod check;
mod put;

ghost use Rattle.std.specs.Prelude.{◌≡◌, length};
ghost use Rattle.text.specs.Room.{Written};
ghost use Rattle.cards_writing.specs.Writing.{pty_text, fac_text};
ghost use Rattle.cards_full.specs.Full.{write_answer, written};

use cards_fields::parts;
use cards_request::{FullRequest, Request};
use numbers::{Refusal, limits};
use text::room::Room;

// Puts the PTY card of a request of n cards at the start of lent bytes.
fn pty_in(bytes: &mut [u8], request: Request, n: usize) -> usize
    ensures { Written bytes.old 0 (pty_text n request) bytes.new result }
{
    let mut room = Room { bytes, at: 0 };
    cards_writing::put::put_pty(&mut room, request, n);
    room.at
}

// Puts the FAC card.
fn fac_in(bytes: &mut [u8], request: Request) -> usize
    ensures { Written bytes.old 0 (fac_text request) bytes.new result }
{
    let mut room = Room { bytes, at: 0 };
    cards_writing::put::put_fac(&mut room, request);
    room.at
}

// Writes a request's cards at the start of the room: how many bytes they take, or why nothing was written. PTY and FAC
// are put into arrays one byte longer than a card may be, so that a longer one shows, the further cards into one that
// holds fourteen, and the room is touched only when all fits.
pub fn write(room: &mut [u8], full: FullRequest) -> Result<usize, Refusal>
    ensures answers { result ≡ write_answer full (length room.old) }
    ensures holds { room.new ≡ written full room.old }
{
    if !check::is_taken(full) {
        return Err(Refusal::WrongRequest);
    }
    let request = full.request;
    let further = full.further;
    let mut pty = [0u8; limits::CARD_LENGTH + 1];
    let p = pty_in(&mut pty, request, 2 + further.count);
    if limits::CARD_LENGTH < p {
        return Err(Refusal::NoRoom);
    }
    let mut fac = [0u8; limits::CARD_LENGTH + 1];
    let f = fac_in(&mut fac, request);
    if limits::CARD_LENGTH < f {
        return Err(Refusal::NoRoom);
    }
    let id = request.id;
    let before = parts::gathered(&id).len + 1;
    if !put::are_short(before, further) {
        return Err(Refusal::NoRoom);
    }
    // so many cards, each with its LF
    let mut lines = [0u8; limits::MOST_FURTHER * (limits::CARD_LENGTH + 1)];
    let n = put::further_in(&mut lines, &id, further);
    if room.len() < p + f + 2 + n {
        return Err(Refusal::NoRoom);
    }
    let mut out = Room { bytes: room, at: 0 };
    out.put_bytes(&pty[..p]);
    out.put_byte(b'\n');
    out.put_bytes(&fac[..f]);
    out.put_byte(b'\n');
    out.put_bytes(&lines[..n]);
    Ok(out.at)
}
