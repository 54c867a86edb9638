mod naming;

ghost use Rattle.std.specs.Prelude.{◌≡◌, ◌≤◌, length};

// How many different names a text may have.
pub const NAMES: usize = 256;

// The names that a text has used so far, numbered as they came; each is a part of the text.
// The table stands in the caller: one made here would be copied out.
#[derive(Drop)]
pub struct Names<'t, 'a> {
    words: &'t mut [&'a [u8]; NAMES],
    count: usize,
    ghost whole: { length words.now ≡ 256 },
    ghost fits: { count ≤ 256 },
}
