// Lent room that text is put into, piece after piece: what does not fit is cut at its end.
ghost use Rattle.std.specs.Prelude.{[], ◌∷◌};
ghost use Rattle.text.specs.Room.{Puts};
ghost use Rattle.text.specs.Writing.{two_text, octal_text, decimal_text};

// Lent bytes, and the index at which the next piece goes.
#[derive(Drop)]
pub struct Room<'a> {
    pub bytes: &'a mut [u8],
    pub at: usize,
}

impl<'a> Room<'a> {
    // Puts a byte; where the room is full, nothing.
    pub fn put_byte(&mut self, b: u8)
        ensures { Puts self.old (b ∷ []) self.new }
    {
        if self.at < self.bytes.len() {
            self.bytes[self.at] = b;
            self.at += 1;
        }
    }

    // Puts the bytes of a piece, one after the other.
    pub fn put_bytes(&mut self, piece: &[u8])
        ensures { Puts self.old piece.now self.new }
    {
        for b in piece {
            self.put_byte(*b);
        }
    }

    // Puts a number as two digits.
    pub fn put_two(&mut self, n: u8)
        ensures { Puts self.old (two_text n) self.new }
    {
        self.put_byte(b'0' + n / 10);
        self.put_byte(b'0' + n % 10);
    }

    // Puts a number as two octal digits.
    pub fn put_octal(&mut self, n: u8)
        ensures { Puts self.old (octal_text n) self.new }
    {
        self.put_byte(b'0' + n / 8);
        self.put_byte(b'0' + n % 8);
    }

    // Puts a number in decimal, without leading zero.
    pub fn put_decimal(&mut self, n: u64)
        ensures { Puts self.old (decimal_text n) self.new }
    {
        if n < 10 {
            self.put_byte(b'0' + n as u8);
            return;
        }
        self.put_decimal(n / 10);
        self.put_byte(b'0' + (n % 10) as u8);
    }
}
