ghost use Rattle.std.specs.Prelude.{[], ◌∷◌, decimal};
ghost use Rattle.listing.specs.Lines.{blanks, place};
ghost use Rattle.listing.specs.Views.{Puts};

// Text over lent bytes: `at` bytes have come, and those that fit stand at the front.
#[derive(Drop)]
pub struct Writer<'b> {
    pub bytes: &'b mut [u8],
    pub at: usize,
}

impl<'b> Writer<'b> {
    fn put(&mut self, byte: u8)
        ensures { Puts (byte ∷ []) self.old self.new }
    {
        // not `get_mut`: of an element that a field lends that way, the proof does not learn what stands there after
        if self.at < self.bytes.len() {
            self.bytes[self.at] = byte;
        }
        self.at = self.at.saturating_add(1);
    }

    pub fn put_text(&mut self, text: &[u8])
        ensures { Puts text.now self.old self.new }
    {
        for b in text {
            self.put(*b);
        }
    }

    pub fn put_blanks(&mut self, n: usize)
        ensures { Puts (blanks n) self.old self.new }
    {
        for _ in 0..n {
            self.put(b' ');
        }
    }

    pub fn put_number(&mut self, n: u64)
        ensures { Puts (decimal n) self.old self.new }
    {
        if n >= 10 {
            self.put_number(n / 10);
        }
        self.put(b'0' + (n % 10) as u8);
    }

    // A distance: whole dots, and sixteenths where there are any.
    pub fn put_place(&mut self, n: u32)
        ensures { Puts (place n) self.old self.new }
    {
        self.put_number(n as u64 / 16);
        if n % 16 != 0 {
            self.put_text(b"+");
            self.put_number(n as u64 % 16);
            self.put_text(b"/16");
        }
    }
}
