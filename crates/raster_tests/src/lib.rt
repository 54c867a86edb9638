// Bands painted by hand: small shapes whose dots can be counted on the fingers.
//
// A dot's middle is at 16 * x + 8 and a row's level at 16 * y + 8. From left L to right R a square covers
// the middles a with L <= a < R, and from top T to bottom B the levels b with T <= b < B. Each expected
// row below is worked out from that, and none is taken from a run.
#![tactic(auto)]

ghost use Rattle.std.specs.Prelude.{◌+◌, ◌*◌, ◌≤◌, length};

#[cfg(test)]
mod tests {
    use path::builder::{Path, PathError};
    use path::corner::Corner;
    use path::extent::Extent;
    use raster::band::{Band, Canvas};
    use raster::thing::Thing;

    // `count` rows of `width` dots from row `first` on, in the bytes.
    fn canvas(bytes: &mut [u8], width: usize, first: u32, count: usize) -> Canvas<'_>
        requires len { (count * width ≤ length bytes.old) × (width ≤ 8192) }
        requires near { first + count ≤ 65536 }
    {
        Canvas {
            bytes,
            band: Band {
                width,
                first,
                count,
            },
        }
    }

    // How many dots of a row are not white.
    fn painted_dots(row: &[u8]) -> usize {
        row.iter().filter(|dot| **dot != 255).count()
    }

    // The square from (8, 8) to (24, 24): its left and upper corners are on the middle of dot 0, the others on that of dot 1.
    #[test]
    fn corners_on_middles(rt: HostRuntime) {
        let mut bytes = [255u8; 9];
        canvas(&mut bytes, 3, 0, 3).paint(Thing {
            path: &[4, 8, 8, 24, 8, 24, 24, 8, 24],
            clips: &[],
            grey: 7,
        });
        assert!(rt; bytes == [7, 255, 255, 255, 255, 255, 255, 255, 255]);
    }

    // The slope from (40, 8) to (8, 40) crosses level 8 at 40 and level 24 at 24; level 40 is its lower end.
    #[test]
    fn slope_through_middles(rt: HostRuntime) {
        let mut bytes = [255u8; 9];
        canvas(&mut bytes, 3, 0, 3).paint(Thing {
            path: &[3, 8, 8, 40, 8, 8, 40],
            clips: &[],
            grey: 7,
        });
        assert!(rt; bytes == [7, 7, 255, 7, 255, 255, 255, 255, 255]);
    }

    // The left slope crosses level 8 at 8 1/3, just past dot 0's middle, level 24 at 25 and level 40 at 41 2/3,
    // the right one at 125 2/3, 121 and 116 1/3.
    #[test]
    fn slopes_between_middles(rt: HostRuntime) {
        let mut bytes = [255u8; 24];
        canvas(&mut bytes, 8, 0, 3).paint(Thing {
            path: &[3, 0, 0, 128, 0, 100, 96],
            clips: &[],
            grey: 7,
        });
        assert!(rt;
            bytes
                == [
                    255, 7, 7, 7, 7, 7, 7, 7, 255, 255, 7, 7, 7, 7, 7, 7, 255, 255, 255, 7, 7, 7,
                    7, 255,
                ]
        );
    }

    // An L with a horizontal edge on level 24: there only the part below it counts.
    #[test]
    fn horizontal_edge_on_a_level(rt: HostRuntime) {
        let mut bytes = [255u8; 12];
        canvas(&mut bytes, 3, 0, 4).paint(Thing {
            path: &[6, 0, 0, 32, 0, 32, 24, 16, 24, 16, 48, 0, 48],
            clips: &[],
            grey: 7,
        });
        assert!(rt; bytes == [7, 7, 255, 7, 255, 255, 7, 255, 255, 255, 255, 255]);
    }

    // The same from row 1 on, two rows; the byte after the band stays as it is.
    #[test]
    fn band_in_the_middle(rt: HostRuntime) {
        let mut bytes = [255u8; 7];
        canvas(&mut bytes, 3, 1, 2).paint(Thing {
            path: &[6, 0, 0, 32, 0, 32, 24, 16, 24, 16, 48, 0, 48],
            clips: &[],
            grey: 7,
        });
        assert!(rt; bytes == [7, 255, 255, 7, 255, 255, 255]);
    }

    // From the middle of dot 63 to just past that of dot 64, over the end of a word.
    #[test]
    fn over_the_end_of_a_word(rt: HostRuntime) {
        let mut bytes = [255u8; 130];
        canvas(&mut bytes, 130, 0, 1).paint(Thing {
            path: &[4, 1016, 0, 1033, 0, 1033, 16, 1016, 16],
            clips: &[],
            grey: 7,
        });
        assert!(rt; bytes[63] == 7 && bytes[64] == 7);
        assert_eq!(rt; painted_dots(&bytes), 2);
    }

    // The first and the last dot of the widest row, each by a square that ends just past its middle, or at the page's end.
    #[test]
    fn first_and_last_column(rt: HostRuntime) {
        let mut bytes = [255u8; 8192];
        canvas(&mut bytes, 8192, 0, 1).paint(Thing {
            path: &[
                4, 0, 0, 9, 0, 9, 16, 0, 16, 4, 131064, 0, 131072, 0, 131072, 16, 131064, 16,
            ],
            clips: &[],
            grey: 7,
        });
        assert!(rt; bytes[0] == 7 && bytes[8191] == 7);
        assert_eq!(rt; painted_dots(&bytes), 2);
    }

    // All of the widest row.
    #[test]
    fn whole_row(rt: HostRuntime) {
        let mut bytes = [255u8; 8192];
        canvas(&mut bytes, 8192, 0, 1).paint(Thing {
            path: &[4, 0, 0, 131072, 0, 131072, 16, 0, 16],
            clips: &[],
            grey: 7,
        });
        assert_eq!(rt; painted_dots(&bytes), 8192);
    }

    // From 16 to as far right and down as points go: dot 0 has its middle at 8, all others are covered.
    #[test]
    fn far_outside_the_page(rt: HostRuntime) {
        let mut bytes = [255u8; 260];
        canvas(&mut bytes, 130, 700, 2).paint(Thing {
            path: &[4, 16, 0, 16777215, 0, 16777215, 16777215, 16, 16777215],
            clips: &[],
            grey: 7,
        });
        assert!(rt; bytes[0] == 255 && bytes[1] == 7 && bytes[129] == 7 && bytes[130] == 255);
        assert_eq!(rt; painted_dots(&bytes), 258);
    }

    // One point and two points enclose nothing; an empty subpath has no point.
    #[test]
    fn nothing_enclosed(rt: HostRuntime) {
        let mut bytes = [255u8; 9];
        canvas(&mut bytes, 3, 0, 3).paint(Thing {
            path: &[1, 8, 8, 2, 0, 0, 40, 48, 0],
            clips: &[],
            grey: 7,
        });
        assert_eq!(rt; painted_dots(&bytes), 0);
    }

    // A square with a square hole: the hole, from 16 to 48, has the middles 24 and 40 and the levels 24 and 40.
    #[test]
    fn hole(rt: HostRuntime) {
        let mut bytes = [255u8; 16];
        canvas(&mut bytes, 4, 0, 4).paint(Thing {
            path: &[
                4, 0, 0, 64, 0, 64, 64, 0, 64, 4, 16, 16, 48, 16, 48, 48, 16, 48,
            ],
            clips: &[],
            grey: 7,
        });
        assert!(rt; bytes == [7, 7, 7, 7, 7, 255, 255, 7, 7, 255, 255, 7, 7, 7, 7, 7]);
    }

    // A clip with no subpath covers nothing.
    #[test]
    fn empty_clip(rt: HostRuntime) {
        let mut bytes = [255u8; 4];
        canvas(&mut bytes, 2, 0, 2).paint(Thing {
            path: &[4, 0, 0, 32, 0, 32, 32, 0, 32],
            clips: &[0],
            grey: 7,
        });
        assert_eq!(rt; painted_dots(&bytes), 0);
    }

    // One clip from 16 on keeps dots 1 to 3, another down to 32 rows 0 and 1.
    #[test]
    fn nested_clips(rt: HostRuntime) {
        let mut bytes = [255u8; 16];
        canvas(&mut bytes, 4, 0, 4).paint(Thing {
            path: &[4, 0, 0, 64, 0, 64, 64, 0, 64],
            clips: &[
                9, 4, 16, 0, 64, 0, 64, 64, 16, 64, 9, 4, 0, 0, 64, 0, 64, 32, 0, 32,
            ],
            grey: 7,
        });
        assert!(rt;
            bytes
                == [
                    255, 7, 7, 7, 255, 7, 7, 7, 255, 255, 255, 255, 255, 255, 255, 255,
                ]
        );
    }

    // A square over dots 200 to 299, whose words begin at dot 192, under a clip from 0 to 4000: the last middle below that is dot 249's.
    #[test]
    fn clip_from_the_left(rt: HostRuntime) {
        let mut bytes = [255u8; 400];
        canvas(&mut bytes, 400, 0, 1).paint(Thing {
            path: &[4, 3200, 0, 4800, 0, 4800, 16, 3200, 16],
            clips: &[9, 4, 0, 0, 4000, 0, 4000, 16, 0, 16],
            grey: 7,
        });
        assert!(rt; bytes[199] == 255 && bytes[200] == 7 && bytes[249] == 7 && bytes[250] == 255);
        assert_eq!(rt; painted_dots(&bytes), 50);
    }

    // The same under a clip that ends at 1600, left of all of it.
    #[test]
    fn clip_all_to_the_left(rt: HostRuntime) {
        let mut bytes = [255u8; 400];
        canvas(&mut bytes, 400, 0, 1).paint(Thing {
            path: &[4, 3200, 0, 4800, 0, 4800, 16, 3200, 16],
            clips: &[9, 4, 0, 0, 1600, 0, 1600, 16, 0, 16],
            grey: 7,
        });
        assert_eq!(rt; painted_dots(&bytes), 0);
    }

    // A count that is too large is cut, a last odd word is no point, and 2^24 is cut to 0: the square from 0 to 16.
    #[test]
    fn any_words(rt: HostRuntime) {
        let mut bytes = [255u8; 4];
        canvas(&mut bytes, 2, 0, 2).paint(Thing {
            path: &[900, 16777216, 0, 16, 0, 16, 16, 0, 16, 5],
            clips: &[],
            grey: 7,
        });
        assert!(rt; bytes == [7, 255, 255, 255]);
    }

    fn corner(x: u8, y: u8) -> Corner {
        Corner {
            x: x as u32,
            y: y as u32,
        }
    }

    fn add_ring(
        path: &mut Path<'_>,
        first: (u8, u8),
        others: &[(u8, u8)],
    ) -> Result<(), PathError> {
        path.begin_subpath(corner(first.0, first.1))?;
        for (x, y) in others {
            path.append_point(corner(*x, *y))?;
        }
        Ok(())
    }

    fn paint_two_rows(bytes: &mut [u8; 4], path: &[u64], clips: &[u64], grey: u8) {
        canvas(bytes, 2, 0, 2).paint(Thing { path, clips, grey });
    }

    // A path that is built point by point, painted, emptied and painted again: its words still stand there.
    #[test]
    fn built_in_place(rt: HostRuntime) {
        let mut words = [0u64; 3072];
        let mut path = Path::new(&mut words);
        assert!(rt; !path.is_open());
        assert!(rt; path.append_point(corner(3, 3)) == Err(PathError::NoSubpath));
        assert!(rt; add_ring(&mut path, (0, 0), &[(32, 0), (32, 32), (0, 32)]).is_ok());
        assert!(rt; add_ring(&mut path, (16, 0), &[(32, 0), (32, 16), (16, 16)]).is_ok());
        assert!(rt; path.is_open());
        assert_eq!(rt; path.points(), 8);
        let used = path.used();
        assert_eq!(rt; used, 18);
        let mut bytes = [255u8; 4];
        paint_two_rows(&mut bytes, path.front(used), &[], 7);
        assert!(rt; bytes == [7, 255, 7, 7]);
        path.clear();
        assert_eq!(rt; path.points(), 0);
        paint_two_rows(&mut bytes, path.front(used), &[], 9);
        assert!(rt; bytes == [9, 255, 9, 9]);
    }

    // The square from 0 to 64 has the levels 8, 24, 40 and 56, of which the extent from 24 up to before 40 has one.
    #[test]
    fn rows_outside_the_extent(rt: HostRuntime) {
        let mut bytes = [255u8; 4];
        let extent = Extent {
            top: 24,
            bottom: 40,
        };
        canvas(&mut bytes, 1, 0, 4).paint_within(
            Thing {
                path: &[4, 0, 0, 64, 0, 64, 64, 0, 64],
                clips: &[],
                grey: 7,
            },
            extent,
        );
        assert!(rt; bytes == [255, 7, 255, 255]);
    }

    // What is painted later is on top.
    #[test]
    fn on_top(rt: HostRuntime) {
        let mut bytes = [255u8; 4];
        canvas(&mut bytes, 2, 0, 2).paint(Thing {
            path: &[4, 0, 0, 32, 0, 32, 32, 0, 32],
            clips: &[],
            grey: 7,
        });
        canvas(&mut bytes, 2, 0, 2).paint(Thing {
            path: &[4, 16, 0, 32, 0, 32, 16, 16, 16],
            clips: &[],
            grey: 9,
        });
        assert!(rt; bytes == [7, 9, 7, 7]);
    }
}
