ghost use Rattle.std.specs.Prelude.{◌≡◌, true, false, [], ◌∷◌};
ghost use Rattle.listing.specs.Output.{output, Wrote};
ghost use Rattle.listing.specs.Views.{Told, told_of, telling, mark_of, with_thing, with_shown};

use super::writer::Writer;
use path::extent::Extent;
use run::drive::Sink;

// A listing that is written as a job goes: what is written, how many pages were shown, and whether anything was
// painted since the last. It holds the parts of a writer and no writer, since of lent memory that a struct in a
// struct holds nothing is known once both are gone.
#[derive(Drop)]
pub struct ListingSink<'b> {
    pub bytes: &'b mut [u8],
    pub at: usize,
    pub pages: u64,
    pub unshown: bool,
}

impl<'b> ListingSink<'b> {
    // Nothing is painted or shown yet.
    pub fn new(bytes: &'b mut [u8]) -> ListingSink<'b>
        ensures value { told_of result ≡ telling (output 0 bytes.old) 0 false }
        ensures lent { result.bytes.ghost_name ≡ bytes.entry.ghost_name }
    {
        ListingSink {
            bytes,
            at: 0,
            pages: 0,
            unshown: false,
        }
    }

    // Marks what was painted after the last page, if anything was.
    pub fn mark(&mut self)
        ensures wrote { Wrote (mark_of (told_of self.old)) (told_of self.old).output (told_of self.new).output }
        ensures lent { self.new.bytes.ghost_name ≡ self.old.bytes.ghost_name }
    {
        let mut out = Writer {
            bytes: self.bytes,
            at: self.at,
        };
        out.put_mark(self.unshown);
        self.at = out.at;
    }
}

impl<'b> Sink for ListingSink<'b> {
    ghost View = { Told };

    ghost view = { told_of };

    ghost paint = { with_thing };

    ghost page = { with_shown };

    ghost more = { λ t. true };

    ghost lent = { λ s. s.bytes.ghost_name ∷ [] };

    fn painted(&mut self, path: &[u64], _extent: Extent, clips: &[u64], grey: u8) {
        let mut out = Writer {
            bytes: self.bytes,
            at: self.at,
        };
        out.put_thing(path, clips, grey);
        self.at = out.at;
        self.unshown = true;
    }

    fn shown(&mut self) -> bool {
        self.pages = self.pages.saturating_add(1);
        let mut out = Writer {
            bytes: self.bytes,
            at: self.at,
        };
        out.put_page(self.pages);
        self.at = out.at;
        self.unshown = false;
        true
    }
}
