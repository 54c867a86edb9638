ghost use Rattle.std.specs.Prelude.{◌+◌, ◌≤◌, [], if◌then◌else◌};
ghost use Rattle.std.specs.List.{flat_map};
ghost use Rattle.path.specs.Points.{point_of};
ghost use Rattle.path.specs.Reading.{points_left, rings_left, paths_left};
ghost use Rattle.machine.specs.Abstraction.{paint_in};
ghost use Rattle.listing.specs.Lines.{point_line, subpath_lines, path_lines, clip_lines, thing_lines, page_line, unshown_line};
ghost use Rattle.listing.specs.Views.{Puts};

use super::writer::Writer;
use path::corner::Corner;
use path::stored::{Clips, Points, Subpaths};

impl<'b> Writer<'b> {
    fn put_point(&mut self, indent: usize, corner: Corner)
        ensures { Puts (point_line indent (point_of corner)) self.old self.new }
    {
        self.put_blanks(indent);
        self.put_text(b"point ");
        self.put_place(corner.x);
        self.put_text(b" ");
        self.put_place(corner.y);
        self.put_text(b"\n");
    }

    fn put_points(&mut self, indent: usize, points: Points)
        ensures { Puts (flat_map (point_line indent) (points_left points.entry)) self.old self.new }
    {
        for corner in points {
            self.put_point(indent, corner);
        }
    }

    fn put_subpath(&mut self, indent: usize, points: Points)
        requires { indent ≤ 4 }
        ensures { Puts (subpath_lines indent (points_left points.entry)) self.old self.new }
    {
        self.put_blanks(indent);
        self.put_text(b"subpath\n");
        self.put_points(indent + 2, points);
    }

    fn put_path(&mut self, indent: usize, path: Subpaths)
        requires { indent ≤ 4 }
        ensures { Puts (path_lines indent (rings_left path.entry)) self.old self.new }
    {
        for points in path {
            self.put_subpath(indent, points);
        }
    }

    fn put_clip(&mut self, path: Subpaths)
        ensures { Puts (clip_lines (rings_left path.entry)) self.old self.new }
    {
        self.put_text(b"  clip\n");
        self.put_path(4, path);
    }

    fn put_clips(&mut self, clips: Clips)
        ensures { Puts (flat_map clip_lines (paths_left clips.entry)) self.old self.new }
    {
        for path in clips {
            self.put_clip(path);
        }
    }

    // The lines of a thing that is painted.
    pub fn put_thing(&mut self, path: &[u64], clips: &[u64], grey: u8)
        ensures { Puts (thing_lines (paint_in path.now clips.now grey)) self.old self.new }
    {
        self.put_text(b"thing grey ");
        self.put_number(grey as u64);
        self.put_text(b"\n");
        self.put_path(2, Subpaths::new(path));
        self.put_clips(Clips::new(clips));
    }

    // The line of a page, behind its things.
    pub fn put_page(&mut self, page: u64)
        ensures { Puts (page_line page) self.old self.new }
    {
        self.put_text(b"shown as page ");
        self.put_number(page);
        self.put_text(b"\n");
    }

    // The mark behind things that no page shows, if there are any.
    pub fn put_mark(&mut self, unshown: bool)
        ensures { Puts (if unshown then unshown_line else []) self.old self.new }
    {
        if unshown {
            self.put_text(b"never printed\n");
        }
    }
}
