ghost use Rattle.std.specs.Prelude.{◌≡◌, ℕ, ◌*◌, ◌^◌, ◌<◌, ◌≤◌, true, false, length, if◌then◌else◌, slice_index};
ghost use Rattle.bits.specs.Row.{bit, bit_at};

use crate::row::Row;

impl<const N: usize> Row<N> {
    // Writes grey to the dots whose bits are set: a run of full words at once, any other word by itself.
    pub fn paint(&self, dots: &mut [u8], grey: u8)
        requires { self.now.len < 2 ^ 32 }
        ensures { (x : ℕ) → x < length dots.old → slice_index dots.new x ≡ (if bit_at self.now.words x then grey else slice_index dots.old x) }
    {
        let words = &self.words[..];
        let width = dots.len();
        // a run of full words is one step, so the place is counted by hand
        let mut i = self.low;
        while i < self.high {
            let start = (64 * i).min(width);
            let run = full_words(&words[i..self.high]);
            if run > 0 {
                let end = (64 * (i + run)).min(width);
                dots[start..end].fill(grey);
                i += run;
            } else {
                let end = (start + 64).min(width);
                paint_word(&mut dots[start..end], words[i], grey);
                i += 1;
            }
        }
    }
}

// How many clear bits stand below the lowest set one.
fn clear_bits(word: u64) -> u32
    requires { 0 < word }
    ensures few { result < 64 }
    ensures below { (k : ℕ) → k < result → bit word k ≡ false }
    ensures at { bit word result ≡ true }
{
    word.trailing_zeros()
}

// How many set bits stand below the lowest clear one.
fn set_bits(word: u64) -> u32
    ensures few { result ≤ 64 }
    ensures below { (k : ℕ) → k < result → bit word k ≡ true }
    ensures at { result < 64 → bit word result ≡ false }
{
    word.trailing_ones()
}

// Writes grey to the dots whose bits are set in the word, run by run.
fn paint_word(dots: &mut [u8], word: u64, grey: u8)
    requires { length dots.old ≤ 64 }
    ensures { (x : ℕ) → x < length dots.old → slice_index dots.new x ≡ (if bit word x then grey else slice_index dots.old x) }
{
    let len = dots.len();
    let mut from = 0;
    let mut rest = word;
    while rest != 0 {
        let skip = clear_bits(rest);
        let set = rest >> skip;
        let run = set_bits(set);
        let start = from + skip as usize;
        let end = start + run as usize;
        dots[start.min(len)..end.min(len)].fill(grey);
        if run >= 64 {
            break;
        }
        from = end;
        rest = set >> run;
    }
}

// How many words stand before the first that is not all ones.
fn full_words(words: &[u64]) -> usize
    ensures within { result ≤ length words.now }
    ensures full { (i : ℕ) → i < result → slice_index words.now i ≡ 18446744073709551615 }
{
    words.iter().take_while(|word| **word == u64::MAX).count()
}
