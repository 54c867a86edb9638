// Reading a text and running a job as C functions, so that a Rust program can time them.
//
// In: a text, or stored tokens and words for a path and for clips, each slice as a pointer and a length. Out: one
// number. No C caller is held to a `requires`, so words that are too few are refused, by the largest number.
#![tactic(auto)]

ghost use Rattle.std.specs.Prelude.{◌≡◌, ◌<◌, ◌≤◌, length, replicate};
ghost use Rattle.tokens.specs.Stored.{decode};
ghost use Rattle.tokens.specs.Stage.{thin};
ghost use Rattle.lexer.specs.Reading.{read};
ghost use Rattle.machine.specs.Machine.{begin};
ghost use Rattle.machine.specs.Laws.{state_of};
ghost use Rattle.machine.specs.Stage.{run_in_stage};
ghost use Rattle.run_bench.specs.Answers.{Counted};

use run::count::count_pages;
use text::count_tokens;
use tokens::Thin;

// How many tokens a text has; the largest number where it is refused.
#[unsafe(no_mangle)]
pub extern "C" fn text_count_tokens(source: &[u8]) -> u64
    ensures { Counted result (read thin source.now) }
{
    match count_tokens::<Thin>(source) {
        Ok(n) => n as u64,
        Err(_) => u64::MAX,
    }
}

// How many pages stored tokens show in so many steps; the largest number where there are too few words for a path.
#[unsafe(no_mangle)]
pub extern "C" fn run_count_pages(
    tokens: &[u64],
    words: &mut [u64],
    clips: &mut [u64],
    steps: u32,
) -> u64
    ensures pages { 3072 ≤ length words.old → result ≡ length (state_of (run_in_stage steps (begin (decode tokens.now)))).pages }
    ensures after { 3072 ≤ length words.old → (words.new ≡ replicate (length words.old) 0) × (clips.new ≡ replicate (length clips.old) 0) }
    ensures refused { length words.old < 3072 → (result ≡ 18446744073709551615) × (words.new ≡ words.old) × (clips.new ≡ clips.old) }
{
    if words.len() < 3072 {
        return u64::MAX;
    }
    count_pages::<Thin>(tokens, words, clips, steps).pages as u64
}
