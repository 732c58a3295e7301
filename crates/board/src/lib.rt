// The board: everything that stands in the cell, as text in lent room.
#![tactic(auto)]

ghost use Rattle.std.specs.Prelude.{◌≡◌};
ghost use Rattle.board.specs.Board.{Boarded};

use packets::Lists;
use schedule_list::Schedule;
use text::room::Room;

// Puts the board. 19,795 bytes hold every board; a smaller room gets what fits.
pub fn put(out: &mut Room, lists: Lists, schedule: Schedule)
    ensures boarded { Boarded out.old.bytes.now out.old.at lists schedule out.new.bytes.now out.new.at }
    ensures same { out.new.bytes.ghost_name ≡ out.old.bytes.ghost_name }
{
    let requests = schedule.requests();
    let list = lists.list;
    board_jobs::put_places(out, lists.jobs, requests);
    board_units::put_units(out, lists.channels, lists.units);
    board_jobs::put_core(out, lists.jobs);
    board_drum::put_drum(out, lists.jobs);
    board_lists::put_moves(out, lists.moving);
    board_lists::put_listed(out, lists.jobs, &list.entries[..list.count.min(256)]);
    board_lists::put_requests(out, requests);
    out.put_bytes(b"END OF BOARD\n");
}
