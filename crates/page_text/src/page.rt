ghost use Rattle.std.specs.Prelude.{◌≡◌, ℕ, ◌+◌, ◌-◌, ◌*◌, ◌<◌, ◌≤◌, List, [], ◌++◌, length, take, drop, IfOk, Ok, Err, slice_index_or};
ghost use Rattle.raster.specs.Coverage.{rows as painted};
ghost use Rattle.session.specs.Jobs.{Job, shown};
ghost use Rattle.session.specs.Promise.{Serves};
ghost use Rattle.session.specs.Regions.{Shaped, the_printer};
ghost use Rattle.session.specs.Views.{regions_of, memory_of};
ghost use Rattle.session.specs.declared.question.Reason.TheVariants.{NoSuchRows};
ghost use Rattle.page_text.specs.Rows.{Placed, outcome};

use session::question::{Question, Reason, Reply};
use session::session::Session;

// The most rows that a session answers for at a time.
const ROWS: u64 = 64;

// Rows of a page, from one up to before another one; pages and rows are counted from 0.
#[derive(Clone, Copy, Debug, PartialEq, Eq)]
pub struct Rows {
    pub page: u64,
    pub from: u64,
    pub to: u64,
}

// Why rows are missing: there is no room for them, or a question was refused.
#[derive(Clone, Copy, Debug, PartialEq, Eq)]
pub enum Missing {
    NoRoom,
    Unanswered(Reason),
}

fn copy_at(out: &mut [u8], at: usize, part: &[u8])
    requires { at + length part.now ≤ length out.old }
    ensures { out.new ≡ take at out.old ++ (part.now ++ drop (at + length part.now) out.old) }
{
    out[at..at + part.len()].copy_from_slice(part);
}

// Asks for a band and puts it into its place; says where the place behind it is.
fn put_band(
    s: &mut Session<'_>,
    page: u64,
    row: u64,
    rows: u64,
    at: usize,
    out: &mut [u8],
) -> Result<usize, Missing>
    requires { at ≤ length out.old }
    ensures within { IfOk result (λ end. end ≤ length out.new) }
    ensures serves { (j : Job) → Shaped (regions_of s.old) → Serves the_printer j (memory_of s.old) → Shaped (regions_of s.new) × Serves the_printer j (memory_of s.new) }
    ensures right { (j : Job) → Shaped (regions_of s.old) → Serves the_printer j (memory_of s.old) → rows ≤ 64 → at + rows * j.wide ≤ length out.old → Placed result j page row rows at out.old out.new }
{
    match s.ask(Question::Band { page, row, rows }) {
        Reply::Dots(n) => {
            let band = s.rows(n);
            let size = band.len();
            if size <= out.len() - at {
                copy_at(out, at, band);
                Ok(at + size)
            } else {
                Err(Missing::NoRoom)
            }
        }
        Reply::Unanswered(reason) => Err(Missing::Unanswered(reason)),
        Reply::Ended { .. } => Err(Missing::NoRoom),
    }
}

// Puts rows of a page one after the other into `out`, asked for in bands of so many rows, cut to 1 to 64. At least one
// question is asked, so that a page that was not shown is refused also for no rows.
pub fn rows_between(
    s: &mut Session<'_>,
    rows: Rows,
    band: u64,
    width: usize,
    out: &mut [u8],
) -> Result<(), Missing>
    ensures right { (j : Job) → Shaped (regions_of s.old) → Serves the_printer j (memory_of s.old) → rows.page < length (shown j) → rows.from ≤ rows.to → rows.to ≤ j.tall → width ≡ j.wide → (rows.to - rows.from) * width ≤ length out.old →
        (result ≡ Ok tt) × (out.new ≡ painted (slice_index_or (shown j) rows.page []) j.wide rows.from (rows.to - rows.from) ++ drop ((rows.to - rows.from) * j.wide) out.old) × Shaped (regions_of s.new) × Serves the_printer j (memory_of s.new) }
    ensures answer { (j : Job) → Shaped (regions_of s.old) → Serves the_printer j (memory_of s.old) → rows.from ≤ rows.to → width ≡ j.wide → (rows.to - rows.from) * width ≤ length out.old → result ≡ outcome j rows.page rows.to }
    ensures serves { (j : Job) → Shaped (regions_of s.old) → Serves the_printer j (memory_of s.old) → Shaped (regions_of s.new) × Serves the_printer j (memory_of s.new) }
    ensures backward { rows.to < rows.from → (result ≡ Err (Missing.Unanswered NoSuchRows)) × (out.new ≡ out.old) }
    ensures room { rows.from ≤ rows.to → length out.old < (rows.to - rows.from) * width → (result ≡ Err Missing.NoRoom) × (out.new ≡ out.old) }
{
    let Rows { page, from, to } = rows;
    if to < from {
        return Err(Missing::Unanswered(Reason::NoSuchRows));
    }
    if (to - from) as u128 * width as u128 > out.len() as u128 {
        return Err(Missing::NoRoom);
    }
    let height = band.clamp(1, ROWS);
    let mut y = from;
    let mut at = 0;
    // No `for` over the bands: there is a first one, of no rows, also where there are no rows.
    loop {
        let n = height.min(to - y);
        at = put_band(s, page, y, n, at, out)?;
        y += n;
        if y == to {
            return Ok(());
        }
    }
}
