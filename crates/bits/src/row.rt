ghost use Rattle.std.specs.Prelude.{◌≡◌, ℕ, suc, ◌*◌, ◌<◌, ◌≤◌, not, ◌&&◌, length, ◌==◌, nat_lt, bit_and, bit_xor, slice_index};
ghost use Rattle.std.specs.Bool.{xor};
ghost use Rattle.bits.specs.Row.{bit, bit_at, odd_below, Within, Empty};

use std::ops::Range;

// A row of dots, 64 to a word, in the first `len` of its words. Of these only low..high may be set.
#[derive(Drop)]
pub struct Row<const N: usize> {
    pub(crate) words: [u64; N],
    pub(crate) len: usize,
    pub(crate) low: usize,
    pub(crate) high: usize,
    ghost fits: { len ≤ N },
    ghost begins: { low ≤ len },
    ghost ends: { high ≤ len },
    ghost within: { Within words low high },
}

impl<const N: usize> Row<N> {
    // A row of `len` words of which none is set.
    pub fn new(len: usize) -> Row<N>
        requires { len ≤ N }
        ensures len { result.len ≡ len }
        ensures span { (result.low ≡ len) × (result.high ≡ 0) }
        ensures empty { Empty result.words }
    {
        Row {
            words: [0; N],
            len,
            low: len,
            high: 0,
        }
    }

    // Whether dot x is one of the row's.
    pub fn has(&self, x: usize) -> bool
        ensures { result ≡ nat_lt x (64 * self.now.len) }
    {
        x / 64 < self.len
    }

    // The words of the row that may be set.
    pub fn span(&self) -> Range<usize>
        ensures { (result.start ≡ self.now.low) × (result.end ≡ self.now.high) }
    {
        self.low..self.high
    }

    // Changes the bit of dot x.
    pub fn toggle(&mut self, x: usize)
        requires { x < 64 * self.old.len }
        ensures value { (k : ℕ) → bit_at self.new.words k ≡ xor (k == x) (bit_at self.old.words k) }
        ensures len { self.new.len ≡ self.old.len }
    {
        let at = x / 64;
        self.words[at] ^= 1 << (x % 64);
        self.low = self.low.min(at);
        self.high = self.high.max(at + 1);
    }

    // Each bit of the row becomes the parity of the bits up to it. Where that stays odd the row is set to its end.
    pub fn sweep(&mut self)
        ensures value { (x : ℕ) → x < 64 * self.old.len → bit_at self.new.words x ≡ odd_below (bit_at self.old.words) (suc x) }
        ensures len { self.new.len ≡ self.old.len }
    {
        if self.low >= self.high {
            return;
        }
        let words = &mut self.words[..];
        if sweep_words(&mut words[self.low..self.high]) != 0 {
            words[self.high..self.len].fill(u64::MAX);
            self.high = self.len;
        }
    }

    // Keeps the bits of the row that are set in `others` too.
    pub fn keep_common(&mut self, others: &Row<N>)
        ensures value { (x : ℕ) → bit_at self.new.words x ≡ (bit_at self.old.words x && bit_at others.now.words x) }
        ensures len { self.new.len ≡ self.old.len }
        ensures span { (self.new.low ≡ self.old.low) × (self.new.high ≡ self.old.high) }
    {
        if self.low < self.high {
            let words = &mut self.words[..];
            let theirs = &others.words[..];
            keep_words(
                &mut words[self.low..self.high],
                &theirs[self.low..self.high],
            );
        }
    }

    // Makes the row empty again, for a row of `len` words.
    pub fn clear(&mut self, len: usize)
        requires { len ≤ N }
        ensures len { self.new.len ≡ len }
        ensures empty { Empty self.new.words }
    {
        if self.low < self.high {
            let words = &mut self.words[..];
            words[self.low..self.high].fill(0);
        }
        self.len = len;
        self.low = len;
        self.high = 0;
    }
}

// Each bit becomes the parity of the bits up to it.
fn spread(word: u64) -> u64
    ensures { (k : ℕ) → k < 64 → bit result k ≡ odd_below (bit word) (suc k) }
{
    let by_two = word ^ (word << 1);
    let by_four = by_two ^ (by_two << 2);
    let by_eight = by_four ^ (by_four << 4);
    let by_sixteen = by_eight ^ (by_eight << 8);
    let by_half = by_sixteen ^ (by_sixteen << 16);
    by_half ^ (by_half << 32)
}

// A word with the parity that is carried into it, swept. A word with no bit set is all as the carry says.
fn swept(word: u64, carry: u64) -> u64
    requires { carry < 2 }
    ensures { (k : ℕ) → k < 64 → bit result k ≡ odd_below (bit (bit_xor word carry)) (suc k) }
{
    if word != 0 {
        return spread(word ^ carry);
    }
    if carry == 0 { 0 } else { u64::MAX }
}

// Sweeps words from an even parity on. Answers the parity of all bits, 0 or 1.
fn sweep_words(words: &mut [u64]) -> u64
    ensures value { (x : ℕ) → x < 64 * length words.old → bit_at words.new x ≡ odd_below (bit_at words.old) (suc x) }
    ensures parity { not (result == 0) ≡ odd_below (bit_at words.old) (64 * length words.old) }
{
    let mut carry = 0;
    for word in words.iter_mut() {
        *word = swept(*word, carry);
        carry = *word >> 63;
    }
    carry
}

// Keeps the bits of each word that are set in the other one too.
fn keep_words(words: &mut [u64], others: &[u64])
    requires { length words.old ≤ length others.now }
    ensures { (i : ℕ) → i < length words.old → slice_index words.new i ≡ bit_and (slice_index words.old i) (slice_index others.now i) }
{
    // by their place: what a loop over `iter_mut().zip(others)` wrote is not known after it
    for (i, word) in words.iter_mut().enumerate() {
        *word &= others[i];
    }
}
