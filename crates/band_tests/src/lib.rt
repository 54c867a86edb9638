// Bands of small jobs: rows 1 and 2 of a page, three dots wide, which can be worked out by hand.
//
// A job's point (x, y) is the corner of dot x in row y, so a square from (1, 1) to (3, 2) covers the
// dots 1 and 2 of row 1. Behind the rows stands one byte more. No expected byte is taken from a run.
#![tactic(auto)]

#[cfg(test)]
mod tests {
    use band::page::run_band;
    use raster::band::Band;
    use text::store_tokens;
    use tokens::Whole;

    // Dots 1 and 2 of row 1 in grey 7 on a page, dot 0 of row 2 in grey 40 on the next, and then a fault.
    const TWO_PAGES: &[u8] =
        b"7 greys 1 1 moves 3 1 lines 3 2 lines 1 2 lines fills shows 40 greys 0 2 moves 1 2 lines 1 3 lines 0 3 lines fills shows moves shows";

    // The same two squares and a third over the first, dot 1 of rows 1 and 2 in white, on one page.
    const ONE_PAGE: &[u8] =
        b"7 greys 1 1 moves 3 1 lines 3 2 lines 1 2 lines fills 40 greys 0 2 moves 1 2 lines 1 3 lines 0 3 lines fills 255 greys 1 1 moves 2 1 lines 2 3 lines 1 3 lines fills shows";

    // The band of a page of a text; no tokens if the text is refused.
    fn answer(source: &[u8], bytes: &mut [u8; 7], steps: u32, page: u64) -> bool {
        let mut tokens = [0u64; 256];
        let mut path = [9u64; 3072];
        let mut clips = [9u64; 3072];
        let used = store_tokens::<Whole>(source, &mut tokens)
            .unwrap_or(0)
            .min(256);
        let band = Band {
            width: 3,
            first: 1,
            count: 2,
        };
        run_band(
            &tokens[0..used],
            &mut path,
            &mut clips,
            bytes,
            steps,
            page,
            band,
        )
    }

    // The byte behind the rows stays.
    #[test]
    fn first_page(rt: HostRuntime) {
        let mut bytes = [9u8; 7];
        assert!(rt; answer(TWO_PAGES, &mut bytes, 1000, 0));
        assert!(rt; bytes == [255, 7, 7, 255, 255, 255, 9]);
    }

    // What the page before has is gone, and the fault behind has no say.
    #[test]
    fn second_page(rt: HostRuntime) {
        let mut bytes = [9u8; 7];
        assert!(rt; answer(TWO_PAGES, &mut bytes, 1000, 1));
        assert!(rt; bytes == [255, 255, 255, 40, 255, 255, 9]);
    }

    // The third `shows` is behind the fault.
    #[test]
    fn no_third_page(rt: HostRuntime) {
        let mut bytes = [9u8; 7];
        assert!(rt; !answer(TWO_PAGES, &mut bytes, 1000, 2));
        assert!(rt; bytes == [0; 7]);
    }

    // What is painted later is on top, in white too.
    #[test]
    fn later_on_top(rt: HostRuntime) {
        let mut bytes = [9u8; 7];
        assert!(rt; answer(ONE_PAGE, &mut bytes, 1000, 0));
        assert!(rt; bytes == [255, 255, 7, 40, 255, 255, 9]);
    }

    // The first page is shown by the 16th token.
    #[test]
    fn steps_used_up(rt: HostRuntime) {
        let mut bytes = [9u8; 7];
        assert!(rt; !answer(TWO_PAGES, &mut bytes, 15, 0));
        assert!(rt; bytes == [0; 7]);
        assert!(rt; answer(TWO_PAGES, &mut bytes, 16, 0));
    }
}
