// What a reader gives, put into lent room. A read that fails counts as the end of the input.
#![tactic(auto)]

ghost use Rattle.std.specs.Prelude.{◌≤◌, length, take};
ghost use Rattle.std.specs.Io.KnownBytes.{Consumes};

use std::io::Read;

// Puts into a room what one read gives, and answers how many bytes that is: none at the end of the input.
pub fn read<R: Read>(reader: &mut R, room: &mut [u8]) -> usize
    ensures within { result ≤ length room.new }
    ensures bytes { Consumes (R.remaining reader.old) (R.remaining reader.new) (take result room.new) }
{
    reader.read(room).unwrap_or(0)
}

// Reads until the room is full or the input ends, and answers how many bytes stand there.
pub fn fill<R: Read>(reader: &mut R, room: &mut [u8]) -> usize
    ensures within { result ≤ length room.new }
    ensures bytes { Consumes (R.remaining reader.old) (R.remaining reader.new) (take result room.new) }
{
    let mut done: usize = 0;
    // Stays: a turn goes on by as many bytes as one read gives, and not by one.
    while done < room.len() {
        let n = read(reader, &mut room[done..]);
        if n == 0 {
            break;
        }
        done += n;
    }
    done
}
