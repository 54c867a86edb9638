// Listings worked out by hand: clips, points between dots, and text that is cut short.
#![tactic(auto)]

#[cfg(test)]
mod tests {
    use listing::sink::ListingSink;
    use path::extent::extent_of;
    use run::drive::Sink;

    // 24 is a dot and 8 sixteenths; 16777215, the last there is, is 1048575 dots and 15. The first clip is the oldest.
    const THING: &[u8] = b"thing grey 7
  subpath
    point 1 1+8/16
    point 1048575+15/16 0
  clip
    subpath
      point 0+8/16 0+5/16
  clip
    subpath
      point 0 0
      point 10 1
shown as page 1
";

    // A thing and its page, and how much text they come to.
    fn listed(bytes: &mut [u8]) -> usize {
        let mut sink = ListingSink::new(bytes);
        let path = [2, 16, 24, 16777215, 0];
        let clips = [3, 1, 8, 5, 5, 2, 0, 0, 160, 16];
        sink.painted(&path, extent_of(&path), &clips, 7);
        sink.shown();
        sink.at
    }

    #[test]
    fn clips_and_sixteenths(rt: HostRuntime) {
        let mut bytes = [255u8; 256];
        let length = listed(&mut bytes);
        assert!(rt; length == THING.len());
        assert!(rt; bytes.starts_with(THING));
    }

    // Text that does not fit is counted, and what fits is its front.
    #[test]
    fn cut_short(rt: HostRuntime) {
        let mut bytes = [255u8; 10];
        let length = listed(&mut bytes);
        assert!(rt; length == THING.len());
        assert!(rt; bytes == *b"thing grey");
    }
}
