ghost use Rattle.std.specs.Prelude.{◌≡◌, ◌≤◌, [], length, take};
ghost use Rattle.words.specs.Naming.{words_of, Entered};

use super::{NAMES, Names};

impl<'t, 'a> Names<'t, 'a> {
    pub fn new(words: &'t mut [&'a [u8]; NAMES]) -> Names<'t, 'a>
        ensures { words_of result ≡ [] }
    {
        Names { words, count: 0 }
    }

    // The names that are known.
    fn known(&self) -> &[&'a [u8]]
        ensures { result.now ≡ take self.now.count self.now.words.now }
    {
        let table: &[&'a [u8]; NAMES] = self.words;
        &table[..self.count]
    }

    // How many names are known.
    pub fn len(&self) -> usize
        ensures value { result ≡ length (words_of self.now) }
        ensures bound { result ≤ 256 }
    {
        self.known().len()
    }

    // The number of a name, which is entered where it is new; none where there is no room for one more.
    pub fn enter(&mut self, letters: &'a [u8]) -> Option<u8>
        ensures { Entered result letters.now self.old self.new }
    {
        let known = self.known();
        if let Some(k) = known.iter().position(|name| *name == letters) {
            return Some(k as u8);
        }
        if self.count == NAMES {
            return None;
        }
        let k = self.count;
        self.words[k] = letters;
        self.count += 1;
        Some(k as u8)
    }
}
