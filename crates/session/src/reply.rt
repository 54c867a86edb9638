ghost use Rattle.std.specs.Prelude.{◌≡◌, min, slice_index};
ghost use Rattle.session.specs.Jobs.{how_it_ends, band};
ghost use Rattle.session.specs.Regions.{Roomy, steps_in, says_in, next_in};
ghost use Rattle.session.specs.Views.{regions_of, asked_of, answer_of, Within};

use super::layout::{CLIPS, PATH};
use super::question::{Question, Reason, Reply};
use super::session::Session;
use band::page::run_band;
use raster::band::Band;
use run::count::count_pages;
use tokens::Whole;

// A number of the header, cut to its limit; 0 where there is none.
fn setting(header: &[u64], at: usize, limit: u64) -> u64
    ensures { result ≡ min (slice_index header.now at) limit }
{
    if at < header.len() {
        header[at].min(limit)
    } else {
        0
    }
}

fn steps(header: &[u64]) -> u32
    ensures { result ≡ steps_in header.now }
{
    setting(header, 0, 1_000_000_000) as u32
}

// The band that is asked for, if the page has such rows and the bytes have room for them.
fn band_within(header: &[u64], room: usize, row: u64, rows: u64) -> Option<Band>
    ensures { Within result header.now room row rows }
{
    let width = setting(header, 1, 8192) as usize;
    let height = setting(header, 2, 65535);
    if rows > 64 || row > height || rows > height - row {
        return None;
    }
    let count = rows as usize;
    if count * width > room {
        return None;
    }
    Some(Band {
        width,
        first: row as u32,
        count,
    })
}

impl Session<'_> {
    // How the job ends, by a run of it.
    fn end_reply(&mut self) -> Reply
        requires { Roomy (regions_of self.old) }
        ensures answer { answer_of result self.new.bytes.now ≡ says_in (regions_of self.old) how_it_ends }
        ensures memory { regions_of self.new ≡ next_in (regions_of self.old) how_it_ends }
    {
        let outcome = count_pages::<Whole>(self.text, self.path, self.clips, steps(self.header));
        Reply::Ended {
            pages: outcome.pages,
            ending: u8::from(outcome.ending),
        }
    }

    // Rows of a page, by a run of the job up to the end of that page.
    fn band_reply(&mut self, page: u64, row: u64, rows: u64) -> Reply
        requires { Roomy (regions_of self.old) }
        ensures answer { answer_of result self.new.bytes.now ≡ says_in (regions_of self.old) (band page row rows) }
        ensures memory { regions_of self.new ≡ next_in (regions_of self.old) (band page row rows) }
    {
        let steps = steps(self.header);
        let Some(band) = band_within(self.header, self.bytes.len(), row, rows) else {
            let none = Band {
                width: 0,
                first: 0,
                count: 0,
            };
            let shown = run_band(
                self.text, self.path, self.clips, self.bytes, steps, page, none,
            );
            self.bytes.fill(0);
            return Reply::Unanswered(if shown {
                Reason::NoSuchRows
            } else {
                Reason::NoSuchPage
            });
        };
        if run_band(
            self.text, self.path, self.clips, self.bytes, steps, page, band,
        ) {
            Reply::Dots(band.count * band.width)
        } else {
            Reply::Unanswered(Reason::NoSuchPage)
        }
    }

    // The answer to a question; the regions are then as the written ones are after it.
    pub(super) fn reply(&mut self, question: Question) -> Reply
        ensures answer { answer_of result self.new.bytes.now ≡ says_in (regions_of self.old) (asked_of question) }
        ensures memory { regions_of self.new ≡ next_in (regions_of self.old) (asked_of question) }
    {
        if self.path.len() < PATH || self.clips.len() < CLIPS {
            self.zero_all();
            return Reply::Unanswered(Reason::NoSuchRows);
        }
        match question {
            Question::End => self.end_reply(),
            Question::Band { page, row, rows } => self.band_reply(page, row, rows),
        }
    }
}
