// The law of bands, the contract of a function that only carries it.
ghost use Rattle.page_text.specs.Laws.{BandsMakePages};

// However a page is cut into bands, they make that page.
pub fn bands_make_pages() -> u8
    ensures { BandsMakePages }
{
    0
}
