ghost use Rattle.std.specs.Prelude.{◌≡◌, ◌+◌, ◌<◌, ◌≤◌, [], ◌∷◌, length, MatchOption};
ghost use Rattle.std.specs.Iterator.{YieldsFirstBy, at_most};
ghost use Rattle.path.specs.Points.{point_of};
ghost use Rattle.path.specs.Reading.{points_ahead, rings_ahead, paths_ahead, points_left, rings_left, paths_left};
ghost use Rattle.path.specs.Stored.{pieces, points_in, rings_in, paths_in};

use super::corner::{Corner, LIMIT};

// The first counted piece of `words`, where each counted thing has `size` words, and the rest.
fn first_piece(words: &[u64], size: usize) -> Option<(&[u64], &[u64])>
    requires { size ≤ 2 }
    ensures cases { MatchOption result (pieces size words.now ≡ []) (λ p. pieces size words.now ≡ p.0.now ∷ pieces size p.1.now) }
    ensures rest { MatchOption result (length words.now ≡ 0) (λ p. length p.0.now + length p.1.now + 1 ≡ length words.now) }
{
    let (count, others) = words.split_first()?;
    let there = others.len();
    let counted = (*count).min(there as u64) as usize;
    let end = (size * counted).min(there);
    Some(others.split_at(end))
}

// The points of a subpath, read from its words. Any words are some points.
#[derive(Clone, Copy)]
pub struct Points<'a> {
    words: &'a [u64],
}

impl<'a> Points<'a> {
    pub fn new(words: &'a [u64]) -> Points<'a>
        ensures points { points_left result ≡ points_in words.now }
        ensures words { points_ahead result ≡ words.now }
    {
        Points { words }
    }

    // What is still to be read, as words.
    pub fn words(self) -> &'a [u64]
        ensures { result.now ≡ points_ahead self.entry }
    {
        self.words
    }

    // The next point, as a `for` is given it. Of this call it is said too how many words it takes and leaves.
    pub fn next(&mut self) -> Option<Corner>
        ensures steps { YieldsFirstBy point_of points_left self.old result self.new }
        ensures rest { MatchOption result ((length (points_ahead self.old) < 2) × (self.new ≡ self.old)) (λ _. length (points_ahead self.new) + 2 ≡ length (points_ahead self.old)) }
    {
        let [x, y, others @ ..] = self.words else {
            return None;
        };
        self.words = others;
        Some(Corner {
            x: (*x % LIMIT as u64) as u32,
            y: (*y % LIMIT as u64) as u32,
        })
    }
}

impl<'a> Iterator for Points<'a> {
    type Item = Corner;

    ghost next_gives = { YieldsFirstBy point_of points_left };

    ghost remaining = { λ s. at_most (length s.words.now) };

    fn next(&mut self) -> Option<Corner> {
        Points::next(self)
    }
}

// The subpaths of a path, read from its words. Any words are some subpaths.
#[derive(Clone, Copy)]
pub struct Subpaths<'a> {
    words: &'a [u64],
}

impl<'a> Subpaths<'a> {
    pub fn new(words: &'a [u64]) -> Subpaths<'a>
        ensures rings { rings_left result ≡ rings_in words.now }
        ensures words { rings_ahead result ≡ words.now }
    {
        Subpaths { words }
    }

    // What is still to be read, as words.
    pub fn words(self) -> &'a [u64]
        ensures { result.now ≡ rings_ahead self.entry }
    {
        self.words
    }

    // The next subpath, as a `for` is given it. Of this call it is said too how many words it takes and leaves.
    pub fn next(&mut self) -> Option<Points<'a>>
        ensures steps { YieldsFirstBy points_left rings_left self.old result self.new }
        ensures rest { MatchOption result ((length (rings_ahead self.old) ≡ 0) × (self.new ≡ self.old)) (λ p. length (points_ahead p) + length (rings_ahead self.new) + 1 ≡ length (rings_ahead self.old)) }
    {
        let (points, others) = first_piece(self.words, 2)?;
        self.words = others;
        Some(Points::new(points))
    }
}

impl<'a> Iterator for Subpaths<'a> {
    type Item = Points<'a>;

    ghost next_gives = { YieldsFirstBy points_left rings_left };

    ghost remaining = { λ s. at_most (length s.words.now) };

    fn next(&mut self) -> Option<Points<'a>> {
        Subpaths::next(self)
    }
}

// The paths that clip, read from their words, the oldest first. Any words are some clips.
#[derive(Clone, Copy)]
pub struct Clips<'a> {
    words: &'a [u64],
}

impl<'a> Clips<'a> {
    pub fn new(words: &'a [u64]) -> Clips<'a>
        ensures paths { paths_left result ≡ paths_in words.now }
        ensures words { paths_ahead result ≡ words.now }
    {
        Clips { words }
    }

    // What is still to be read, as words.
    pub fn words(self) -> &'a [u64]
        ensures { result.now ≡ paths_ahead self.entry }
    {
        self.words
    }

    // The next path, as a `for` is given it. Of this call it is said too how many words it takes and leaves.
    pub fn next(&mut self) -> Option<Subpaths<'a>>
        ensures steps { YieldsFirstBy rings_left paths_left self.old result self.new }
        ensures rest { MatchOption result ((length (paths_ahead self.old) ≡ 0) × (self.new ≡ self.old)) (λ p. length (rings_ahead p) + length (paths_ahead self.new) + 1 ≡ length (paths_ahead self.old)) }
    {
        let (path, others) = first_piece(self.words, 1)?;
        self.words = others;
        Some(Subpaths::new(path))
    }
}

impl<'a> Iterator for Clips<'a> {
    type Item = Subpaths<'a>;

    ghost next_gives = { YieldsFirstBy rings_left paths_left };

    ghost remaining = { λ s. at_most (length s.words.now) };

    fn next(&mut self) -> Option<Subpaths<'a>> {
        Clips::next(self)
    }
}
