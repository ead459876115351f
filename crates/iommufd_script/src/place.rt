//! The order of a script's lines.

ghost use Rattle.std.specs.Prelude.{◌≡◌, ◌&&◌, IsTrue, Some, None, not, if◌then◌else◌};
ghost use Rattle.iommufd_script.specs.Script.{start, allows, behind, after};

use crate::line::{HeadLine, Line};

/// How far a script has come: whether its pool was given, how many users, files and devices were, and
/// whether the steps have begun.
#[derive(Clone, Copy)]
pub struct Place {
    pub pool: bool,
    pub users: u16,
    pub files: u16,
    pub devices: u16,
    pub begun: bool,
}

impl Place {
    // Before the first line.
    pub fn start() -> Place
        ensures { result ≡ start }
    {
        Place {
            pool: false,
            users: 0,
            files: 0,
            devices: 0,
            begun: false,
        }
    }

    // Whether such a line of the head may come here.
    fn allows(self, line: &HeadLine<'_>) -> bool
        ensures { result ≡ allows self line.now }
    {
        match line {
            HeadLine::Pool(frames) => !self.pool && *frames >= 1 && *frames <= 4096,
            HeadLine::User(_) => self.pool && self.files == 0 && self.users < 255,
            HeadLine::File(user) => {
                user.0 >= 1 && user.0 <= self.users && self.devices == 0 && self.files < 1024
            }
            HeadLine::Device(_, _, _, reserved) => {
                self.files > 0 && self.devices < 256 && reserved.are_in_limits()
            }
            HeadLine::Begin => self.files > 0,
        }
    }

    // The place behind it.
    fn behind(self, line: &HeadLine<'_>) -> Place
        requires { IsTrue (allows self line.now) }
        ensures { result ≡ behind self line.now }
    {
        let mut next = self;
        match line {
            HeadLine::Pool(_) => next.pool = true,
            HeadLine::User(_) => next.users += 1,
            HeadLine::File(_) => next.files += 1,
            HeadLine::Device(_, _, _, _) => next.devices += 1,
            HeadLine::Begin => next.begun = true,
        }
        next
    }

    // The place behind a line of the head; None where it may not come here. Few lines of a script are of the head, so
    // its code stands apart from that of the steps.
    #[inline(never)]
    pub fn after_heading(self, line: &HeadLine<'_>) -> Option<Place>
        ensures { result ≡ (if not self.begun && allows self line.now then Some (behind self line.now) else None) }
    {
        if self.begun || !self.allows(line) {
            return None;
        }
        Some(self.behind(line))
    }

    // The place behind a line; None where it may not come here, or isn't of the grammar.
    #[inline]
    pub fn after(self, line: &Option<Line<'_>>) -> Option<Place>
        ensures { result ≡ after self line.now }
    {
        match line {
            None => None,
            Some(Line::Skipped) => Some(self),
            Some(Line::Head(heading)) => self.after_heading(heading),
            Some(Line::Step(_)) => { if self.begun { Some(self) } else { None } }
        }
    }
}
