// The lines of an input that comes in pieces: the bytes of the next line are taken up from a piece, behind those that
// came before.
#![tactic(auto)]

ghost use Rattle.std.specs.Prelude.{◌≡◌, take};
ghost use Rattle.input_lines.specs.Lines.{TakesUp};

// How many bytes of the line stand in its room, how many of the piece were taken up, the LF with them, and whether
// that came: the line is whole.
#[derive(Clone, Copy)]
pub struct Cut {
    pub kept: usize,
    pub taken: usize,
    pub whole: bool,
}

// Puts a piece up to its first LF, or all of it, behind what is kept of the line; what is past the room's end is cut
// off.
pub fn take_up(line: &mut [u8], kept: usize, piece: &[u8]) -> Cut
    ensures { TakesUp line.old kept piece.now line.new result }
{
    let n = words::until(piece, b'\n');
    let end = text::put_bytes(line, kept, &piece[..n]);
    if n == piece.len() {
        return Cut {
            kept: end,
            taken: n,
            whole: false,
        };
    }
    Cut {
        kept: end,
        taken: n + 1,
        whole: true,
    }
}

// The first n bytes, all of them where there are no more.
pub fn front(s: &[u8], n: usize) -> &[u8]
    ensures { result.now ≡ take n s.now }
{
    &s[..n.min(s.len())]
}
