ghost use Rattle.std.specs.Prelude.{◌≡◌, IfOk, string_bytes};
ghost use Rattle.page_text.specs.Lines.{head_bytes, refusal_bytes, ending_bytes};

use std::alloc::{AllocError, Global};

// The head of a picture in the PGM format with greys from 0 to 255.
pub fn pgm_head(heap: Global, width: u64, height: u64) -> Result<String, AllocError>
    ensures { IfOk result (λ s. string_bytes s ≡ head_bytes width height) }
{
    format!(in heap; "P5\n{width} {height}\n255\n")
}

pub fn refusal_line(heap: Global, number: u8, place: usize) -> Result<String, AllocError>
    ensures { IfOk result (λ s. string_bytes s ≡ refusal_bytes number place) }
{
    format!(in heap; "refused {number} at {place}\n")
}

pub fn last_line(heap: Global, pages: u32, ending: u8) -> Result<String, AllocError>
    ensures { IfOk result (λ s. string_bytes s ≡ ending_bytes pages ending) }
{
    format!(in heap; "pages {pages} ending {ending}\n")
}
