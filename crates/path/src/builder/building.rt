ghost use Rattle.std.specs.Prelude.{◌≡◌, ◌<◌, ◌≤◌, [], ◌∷◌, ◌++◌, length, if◌then◌else◌, MatchResult, is_ok};
ghost use Rattle.path.specs.Path.{finished};
ghost use Rattle.path.specs.Points.{point_of};
ghost use Rattle.path.specs.Building.{rings_of, ring_of, points_of, words_begun, words_added, NotAppended};
ghost use Rattle.path.specs.Extent.{ExtentOf};
ghost use Rattle.path.specs.declared.builder.PathError.TheVariants.{TooManyPoints};

use super::super::corner::Corner;
use super::super::extent::Extent;
use super::{Front, MOST_POINTS, Path, PathError, ROOM};

impl Front {
    // No words, and a path with no point.
    fn none() -> Front
        ensures used { result.used ≡ 0 }
        ensures extent { ExtentOf result.extent [] }
    {
        Front {
            used: 0,
            extent: Extent::empty(),
        }
    }
}

impl<'m> Path<'m> {
    // The empty path, in words that hold as many points as a path can have.
    pub fn new(words: &'m mut [u64]) -> Path<'m>
        requires { ROOM ≤ length words.old }
        ensures rings { rings_of result ≡ [] }
        ensures ring { ring_of result ≡ [] }
        ensures same { result.words.now ≡ words.old }
        ensures lent { result.words.ghost_name ≡ words.entry.ghost_name }
    {
        Path {
            words,
            start: 0,
            last: 0,
            total: 0,
            built: Front::none(),
            cleared: Front::none(),
        }
    }

    // The empty path again; the words of the old one still stand there.
    pub fn clear(&mut self)
        ensures rings { rings_of self.new ≡ [] }
        ensures ring { ring_of self.new ≡ [] }
        ensures same { self.new.words.now ≡ self.old.words.now }
        ensures lent { self.new.words.ghost_name ≡ self.old.words.ghost_name }
    {
        self.cleared = self.built;
        self.start = 0;
        self.last = 0;
        self.total = 0;
        self.built = Front::none();
    }

    // Finishes the open subpath and begins one at the point.
    pub fn begin_subpath(&mut self, corner: Corner) -> Result<(), PathError>
        ensures value { MatchResult result (λ _. points_of self.old < MOST_POINTS) (λ e. (e ≡ TooManyPoints) × (MOST_POINTS ≤ points_of self.old)) }
        ensures rings { rings_of self.new ≡ (if is_ok result then finished (rings_of self.old) (ring_of self.old) else rings_of self.old) }
        ensures ring { ring_of self.new ≡ (if is_ok result then point_of corner ∷ [] else ring_of self.old) }
        ensures words { self.new.words.now ≡ (if is_ok result then words_begun self.old corner.x corner.y else self.old.words.now) }
        ensures lent { self.new.words.ghost_name ≡ self.old.words.ghost_name }
    {
        if self.total >= MOST_POINTS {
            return Err(PathError::TooManyPoints);
        }
        let extent = self.built.extent.reaching(corner.y);
        self.cleared = Front::none();
        let at = self.built.used;
        self.words[at] = 1;
        self.words[at + 1] = corner.x as u64;
        self.words[at + 2] = corner.y as u64;
        self.start = at;
        self.last = 1;
        self.total += 1;
        self.built = Front {
            used: at + 3,
            extent,
        };
        Ok(())
    }

    // One more point of the open subpath.
    pub fn append_point(&mut self, corner: Corner) -> Result<(), PathError>
        ensures value { MatchResult result (λ _. (0 < length (ring_of self.old)) × (points_of self.old < MOST_POINTS)) (λ e. NotAppended e self.old) }
        ensures rings { rings_of self.new ≡ rings_of self.old }
        ensures ring { ring_of self.new ≡ (if is_ok result then ring_of self.old ++ (point_of corner ∷ []) else ring_of self.old) }
        ensures words { self.new.words.now ≡ (if is_ok result then words_added self.old corner.x corner.y else self.old.words.now) }
        ensures lent { self.new.words.ghost_name ≡ self.old.words.ghost_name }
    {
        if self.last == 0 {
            return Err(PathError::NoSubpath);
        }
        if self.total >= MOST_POINTS {
            return Err(PathError::TooManyPoints);
        }
        let extent = self.built.extent.reaching(corner.y);
        let at = self.built.used;
        self.words[at] = corner.x as u64;
        self.words[at + 1] = corner.y as u64;
        self.words[self.start] = self.last as u64 + 1;
        self.last += 1;
        self.total += 1;
        self.built = Front {
            used: at + 2,
            extent,
        };
        Ok(())
    }
}
