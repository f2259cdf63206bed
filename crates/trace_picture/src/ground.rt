//! What a picture has besides its shapes.
ghost use Rattle.std.specs.Prelude.{◌%◌, ◌≡◌, ◌++◌, ◌+◌, ◌≤◌, ◌<◌, ◌^◌, length, OnOk, string_bytes};
ghost use Rattle.trace_picture.specs.Grounds as Text;

use crate::layout::{LEFT, Layout, SPACE};
use orb_base::NoMemory;
use std::fmt;
use std::fmt::Write;

/// How parts look.
pub const STYLE: &str =
    "<style>text{font:12px sans-serif}.t{font-size:15px}.n{font-weight:bold}.s{fill:#f4f4f4}.a{stroke:#000}\
.h{stroke:#000;stroke-width:.8;fill:none}.b{stroke:#000;stroke-width:.5}.w{stroke:#333;stroke-width:1.2;fill:none}\
.x{stroke:#000;stroke-width:1.5;fill:none}.f{stroke:#d55e00;stroke-width:2.5}\
.r{stroke:#000;stroke-width:1.5;stroke-dasharray:6 3}</style>\n\
<rect width='100%' height='100%' fill='#fff'/>\n";

/// What shapes mean.
pub const LEGEND: &str =
    "<path class='b' fill='url(#l0)' d='M0 2h30v12h-30z'/><text x='42' y='12'>a thread carries out a request, \
from its Take to its Finish; the colour is that of the request's lane</text>\n\
<text x='42' y='29'>(a bar of another lane's colour is a thread that is lent)</text>\n\
<path class='w' d='M0 42h30'/><text x='42' y='46'>a request waits, from its Offer to its Take</text>\n\
<path class='w' d='M0 59h30'/><path class='x' transform='translate(30 59)' d='M-3 -3L3 3M-3 3L3 -3'/>\
<text x='42' y='63'>it was withdrawn</text>\n\
<path class='f' d='M15 69v14'/><text x='42' y='80'>a request was refused, since nothing more might wait</text>\n\
<path class='r' d='M15 86v14'/><text x='42' y='97'>a call was not heard, since a limit of the run was met</text>\n\
<circle class='b' cx='15' cy='110' r='3' fill='url(#l0)'/>\
<text x='42' y='114'>a reply was handed over to be sent (grey: an answer of the reading side)</text>\n\
</g>\n</svg>\n";

/// One of the first four colours.
fn warm_colour(c: u8) -> &'static str
    ensures { result.now ≡ Text.warm_colour c }
{
    if c == 0 {
        "#56b4e9"
    } else if c == 1 {
        "#e69f00"
    } else if c == 2 {
        "#009e73"
    } else {
        "#f0e442"
    }
}

/// One of the last four colours.
fn cool_colour(c: u8) -> &'static str
    ensures { result.now ≡ Text.cool_colour c }
{
    if c == 4 {
        "#cc79a7"
    } else if c == 5 {
        "#0072b2"
    } else if c == 6 {
        "#ffffff"
    } else {
        "#999999"
    }
}

/// One of eight colours that those who can't tell red from green tell apart.
#[tactic(auto, unfolding(crate::specs::Grounds::colour))]
fn colour(c: u8) -> &'static str
    ensures { result.now ≡ Text.colour c }
{
    if c < 4 {
        warm_colour(c)
    } else {
        cool_colour(c)
    }
}

/// The lines over a colour.
#[tactic(auto, unfolding(crate::specs::Grounds::hatch))]
fn hatch(k: u8) -> &'static str
    ensures { result.now ≡ Text.hatch k }
{
    if k == 0 {
        "M0 0"
    } else if k == 1 {
        "M0 6L6 0"
    } else if k == 2 {
        "M 3 0v6"
    } else if k == 3 {
        "M0 3H6"
    } else {
        "M0 0L6 6M0 6L6 0"
    }
}

/// The colour of a lane.
#[derive(Clone, Copy)]
struct LaneColour {
    lane: u8,
}

impl fmt::Display for LaneColour {
    ghost use Rattle.std.specs.Prelude.{Some};

    ghost output = { λ c. Some (Text.colour (c.lane % 8)) };

    fn fmt<W: fmt::Write>(&self, f: &mut fmt::Formatter<W>) -> fmt::Result {
        f.write_str(colour(self.lane % 8))
    }
}

/// The lines over the colour of a lane.
#[derive(Clone, Copy)]
struct LaneHatch {
    lane: u8,
}

impl fmt::Display for LaneHatch {
    ghost use Rattle.std.specs.Prelude.{Some};

    ghost output = { λ h. Some (Text.hatch (h.lane % 5)) };

    fn fmt<W: fmt::Write>(&self, f: &mut fmt::Formatter<W>) -> fmt::Result {
        f.write_str(hatch(self.lane % 5))
    }
}

/// Adds how what belongs to a lane is filled.
fn add_pattern(text: &mut String, lane: u8) -> Result<(), NoMemory>
    ensures { OnOk result (string_bytes text.new ≡ string_bytes text.old ++ Text.pattern_text lane) }
{
    let colour = LaneColour { lane };
    let hatch = LaneHatch { lane };
    writeln!(
        text,
        "<pattern id='l{lane}' width='6' height='6' patternUnits='userSpaceOnUse'>\
<path fill='{colour}' d='M0 0H6V6H0z'/><path class='h' d='{hatch}'/></pattern>"
    )?;
    Ok(())
}

/// The name of a lane.
#[derive(Clone, Copy)]
struct Name {
    lane: u8,
    priority: u16,
}

impl fmt::Display for Name {
    ghost use Rattle.std.specs.Prelude.{Some};

    ghost output = { λ n. Some (Text.name_text n.lane n.priority) };

    fn fmt<W: fmt::Write>(&self, f: &mut fmt::Formatter<W>) -> fmt::Result {
        let Name { lane, priority } = *self;
        write!(
            f,
            "<path class='b' d='M8 8h16v16h-16z' fill='url(#l{lane})'/>\
<text x='30' y='20'>lane {lane}, priority {priority}</text>"
        )
    }
}

/// The size of a picture.
#[derive(Clone, Copy)]
struct Size {
    w: u64,
    h: u64,
}

impl fmt::Display for Size {
    ghost use Rattle.std.specs.Prelude.{Some};

    ghost output = { λ s. Some (Text.size_text s.w s.h) };

    fn fmt<W: fmt::Write>(&self, f: &mut fmt::Formatter<W>) -> fmt::Result {
        let Size { w, h } = *self;
        write!(f, "width='{w}' height='{h}' viewBox='0 0 {w} {h}'")
    }
}

/// Adds the beginning of a picture so wide and so high, with how its parts look.
fn add_head_of(text: &mut String, w: u64, h: u64) -> Result<(), NoMemory>
    ensures { OnOk result (string_bytes text.new ≡ string_bytes text.old ++ Text.head_of w h) }
{
    let size = Size { w, h };
    write!(
        text,
        "<svg xmlns='http://www.w3.org/2000/svg' {size}>\n{STYLE}"
    )?;
    Ok(())
}

/// Adds a strip at a height, so wide, with the name of its lane.
fn add_strip_at(text: &mut String, y: u64, w: u64, name: Name) -> Result<(), NoMemory>
    ensures { OnOk result (string_bytes text.new ≡ string_bytes text.old ++ Text.strip_at y w name.lane name.priority) }
{
    writeln!(
        text,
        "<g transform='translate(0 {y})'><path class='s' d='M190 1v30h{w}v-30z'/>{name}</g>"
    )?;
    Ok(())
}

/// Adds the row of a thread at a height, so wide.
fn add_row_at(text: &mut String, y: u64, w: u64, thread: u8) -> Result<(), NoMemory>
    ensures { OnOk result (string_bytes text.new ≡ string_bytes text.old ++ Text.row_at y w thread) }
{
    writeln!(
        text,
        "<g transform='translate(0 {y})'><path class='s' d='M190 1v14h{w}v-14z'/>\
<text x='110' y='12'>thread {thread}</text></g>"
    )?;
    Ok(())
}

/// Adds a number at a place of the axis.
fn add_number_at(text: &mut String, x: u64, y: u64, n: u64) -> Result<(), NoMemory>
    ensures { OnOk result (string_bytes text.new ≡ string_bytes text.old ++ Text.number_at x y n) }
{
    writeln!(
        text,
        "<g transform='translate({x} {y})'><path class='a' d='M0 20v5'/><text y='38' text-anchor='middle'>{n}</text></g>"
    )?;
    Ok(())
}

/// Adds the axis itself at a height, so wide, and the name of the row of what is handed over.
fn add_axis_at(text: &mut String, y: u64, w: u64) -> Result<(), NoMemory>
    ensures { OnOk result (string_bytes text.new ≡ string_bytes text.old ++ Text.axis_at y w) }
{
    writeln!(
        text,
        "<g transform='translate(0 {y})'><path class='a' d='M190 20h{w}'/>\
<text x='110' y='14'>handed over</text><text x='110' y='38'>entry</text></g>"
    )?;
    Ok(())
}

/// Adds what shapes mean at a height, and the end of the picture.
fn add_legend_at(text: &mut String, y: u64) -> Result<(), NoMemory>
    ensures { OnOk result (string_bytes text.new ≡ string_bytes text.old ++ Text.legend_at y) }
{
    write!(text, "<g transform='translate(30 {y})'>\n{LEGEND}")?;
    Ok(())
}

/// Adds how what belongs to each of these lanes is filled.
fn add_patterns(text: &mut String, lanes: u8) -> Result<(), NoMemory>
    ensures { OnOk result (string_bytes text.new ≡ string_bytes text.old ++ Text.each Text.pattern_text lanes) }
{
    for lane in 0..lanes {
        add_pattern(text, lane)?;
    }
    Ok(())
}

impl Layout {
    /// Adds how large the picture is, and how its parts look.
    fn add_head(&self, text: &mut String) -> Result<(), NoMemory>
        ensures { OnOk result (string_bytes text.new ≡ string_bytes text.old ++ Text.head_text self.now) }
    {
        add_head_of(text, self.width(), self.height())
    }

    /// Adds how what belongs to each lane is filled.
    fn add_all_patterns(&self, text: &mut String) -> Result<(), NoMemory>
        ensures { OnOk result (string_bytes text.new ≡ string_bytes text.old ++ Text.patterns_text self.now) }
    {
        add_patterns(text, self.lanes())
    }

    /// Adds the strip of a lane, with its name.
    fn add_strip(&self, text: &mut String, lane: u8) -> Result<(), NoMemory>
        ensures { OnOk result (string_bytes text.new ≡ string_bytes text.old ++ Text.strip_text self.now lane) }
    {
        let name = Name {
            lane,
            priority: self.priority(lane),
        };
        add_strip_at(text, self.strip_y(lane), self.row_width(), name)
    }

    /// Adds the strips of so many lanes.
    fn add_strips(&self, text: &mut String, lanes: u8) -> Result<(), NoMemory>
        ensures { OnOk result (string_bytes text.new ≡ string_bytes text.old ++ Text.each (Text.strip_text self.now) lanes) }
    {
        for lane in 0..lanes {
            self.add_strip(text, lane)?;
        }
        Ok(())
    }

    /// Adds the strip of each lane.
    fn add_all_strips(&self, text: &mut String) -> Result<(), NoMemory>
        ensures { OnOk result (string_bytes text.new ≡ string_bytes text.old ++ Text.strips_text self.now) }
    {
        self.add_strips(text, self.lanes())
    }

    /// Adds the row of a thread, with its name.
    fn add_row(&self, text: &mut String, thread: u8) -> Result<(), NoMemory>
        ensures { OnOk result (string_bytes text.new ≡ string_bytes text.old ++ Text.row_text self.now thread) }
    {
        add_row_at(text, self.thread_y(thread), self.row_width(), thread)
    }

    /// Adds the rows of so many threads.
    fn add_rows(&self, text: &mut String, threads: u8) -> Result<(), NoMemory>
        ensures { OnOk result (string_bytes text.new ≡ string_bytes text.old ++ Text.each (Text.row_text self.now) threads) }
    {
        for thread in 0..threads {
            self.add_row(text, thread)?;
        }
        Ok(())
    }

    /// Adds the row of each thread.
    fn add_all_rows(&self, text: &mut String) -> Result<(), NoMemory>
        ensures { OnOk result (string_bytes text.new ≡ string_bytes text.old ++ Text.rows_text self.now) }
    {
        self.add_rows(text, self.threads())
    }

    /// Adds the axis itself.
    fn add_axis(&self, text: &mut String) -> Result<(), NoMemory>
        ensures { OnOk result (string_bytes text.new ≡ string_bytes text.old ++ Text.axis_text self.now) }
    {
        add_axis_at(text, self.bottom(), self.row_width())
    }

    /// Adds the number of an entry at the axis.
    fn add_number(&self, text: &mut String, i: u64) -> Result<(), NoMemory>
        requires { i < 2 ^ 40 }
        ensures { OnOk result (string_bytes text.new ≡ string_bytes text.old ++ Text.number_text self.now i) }
    {
        add_number_at(text, LEFT + SPACE * i, self.bottom(), self.number_of(i))
    }

    /// Adds so many numbers at the axis.
    fn add_numbers(&self, text: &mut String, count: u64) -> Result<(), NoMemory>
        requires { count < 2 ^ 40 }
        ensures { OnOk result (string_bytes text.new ≡ string_bytes text.old ++ Text.each (Text.number_text self.now) count) }
    {
        for i in 0..count {
            self.add_number(text, i)?;
        }
        Ok(())
    }

    /// Adds all numbers at the axis.
    fn add_all_numbers(&self, text: &mut String) -> Result<(), NoMemory>
        ensures { OnOk result (string_bytes text.new ≡ string_bytes text.old ++ Text.numbers_text self.now) }
    {
        self.add_numbers(text, self.ticks() + 1)
    }

    /// Adds what lies below the shapes.
    pub fn add_ground(&self, text: &mut String) -> Result<(), NoMemory>
        ensures { OnOk result (string_bytes text.new ≡ string_bytes text.old ++ Text.ground_text self.now) }
    {
        self.add_head(text)?;
        self.add_all_patterns(text)?;
        self.add_all_strips(text)?;
        self.add_all_rows(text)?;
        self.add_axis(text)?;
        self.add_all_numbers(text)?;
        Ok(())
    }

    /// Adds what shapes mean, and the end of the picture.
    pub fn add_legend(&self, text: &mut String) -> Result<(), NoMemory>
        ensures { OnOk result (string_bytes text.new ≡ string_bytes text.old ++ Text.legend_text self.now) }
    {
        add_legend_at(text, self.bottom() + 62)
    }
}
