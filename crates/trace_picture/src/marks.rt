//! The text of shapes.
ghost use Rattle.std.specs.Prelude.{◌≡◌, ◌++◌, OnOk, string_bytes};
ghost use Rattle.trace_picture.specs.Marks as Text;

use crate::layout::{Layout, TOP};
use crate::shape::{Shape, WaitEnd};
use orb_base::NoMemory;
use std::fmt;
use std::fmt::Write;

/// Which request a shape is of, and from which entry to which.
#[derive(Clone, Copy)]
pub struct Span {
    pub request: usize,
    pub lane: u8,
    pub start: u32,
    pub end: u32,
}

/// The words for that.
#[derive(Clone, Copy)]
struct Words {
    span: Span,
}

#[tactic(auto, unfolding(crate::specs::Marks::span_text))]
impl fmt::Display for Words {
    ghost use Rattle.std.specs.Prelude.{Some};

    ghost output = { λ w. Some (Text.span_text w.span) };

    fn fmt<W: fmt::Write>(&self, f: &mut fmt::Formatter<W>) -> fmt::Result {
        write!(
            f,
            "request {} of lane {}, entries {} to {}",
            self.span.request, self.span.lane, self.span.start, self.span.end
        )
    }
}

/// A bar.
#[derive(Clone, Copy)]
pub struct Bar {
    pub x: u64,
    pub y: u64,
    pub width: u64,
    pub span: Span,
}

/// Where a bar is.
#[derive(Clone, Copy)]
struct Place {
    bar: Bar,
}

#[tactic(auto, unfolding(crate::specs::Marks::place_text))]
impl fmt::Display for Place {
    ghost use Rattle.std.specs.Prelude.{Some};

    ghost output = { λ p. Some (Text.place_text p.bar) };

    fn fmt<W: fmt::Write>(&self, f: &mut fmt::Formatter<W>) -> fmt::Result {
        write!(
            f,
            "x='{}' y='{}' width='{}'",
            self.bar.x, self.bar.y, self.bar.width
        )
    }
}

/// A line.
#[derive(Clone, Copy)]
pub struct Line {
    pub x: u64,
    pub y: u64,
    pub to: u64,
    pub span: Span,
}

/// A mark at an entry.
#[derive(Clone, Copy)]
pub struct Mark {
    pub x: u64,
    pub y: u64,
    pub at: u32,
}

/// Adds a bar.
fn add_bar(text: &mut String, bar: Bar) -> Result<(), NoMemory>
    ensures { OnOk result (string_bytes text.new ≡ string_bytes text.old ++ Text.bar_text bar) }
{
    let place = Place { bar };
    let lane = bar.span.lane;
    let words = Words { span: bar.span };
    writeln!(
        text,
        "<rect class='b' {place} height='12' fill='url(#l{lane})'><title>{words}</title></rect>"
    )?;
    Ok(())
}

/// Adds a line.
fn add_line(text: &mut String, line: Line) -> Result<(), NoMemory>
    ensures { OnOk result (string_bytes text.new ≡ string_bytes text.old ++ Text.line_text line) }
{
    let Line { x, y, to, span } = line;
    let words = Words { span };
    writeln!(
        text,
        "<path class='w' d='M{x} {y}H{to}'><title>{words}</title></path>"
    )?;
    Ok(())
}

/// Adds a cross.
fn add_cross(text: &mut String, mark: Mark) -> Result<(), NoMemory>
    ensures { OnOk result (string_bytes text.new ≡ string_bytes text.old ++ Text.cross_text mark) }
{
    let Mark { x, y, .. } = mark;
    writeln!(
        text,
        "<path class='x' transform='translate({x} {y})' d='M-3 -3L3 3M-3 3L3 -3'/>"
    )?;
    Ok(())
}

/// Adds a tick.
fn add_tick(text: &mut String, mark: Mark) -> Result<(), NoMemory>
    ensures { OnOk result (string_bytes text.new ≡ string_bytes text.old ++ Text.tick_text mark) }
{
    let Mark { x, y, at } = mark;
    writeln!(
        text,
        "<path class='f' d='M{x} {y}v28'><title>refused, entry {at}</title></path>"
    )?;
    Ok(())
}

/// Adds a rule.
fn add_rule(text: &mut String, mark: Mark) -> Result<(), NoMemory>
    ensures { OnOk result (string_bytes text.new ≡ string_bytes text.old ++ Text.rule_text mark) }
{
    let Mark { x, y, at } = mark;
    writeln!(
        text,
        "<path class='r' d='M{x} {TOP}V{y}'><title>closing, entry {at}</title></path>"
    )?;
    Ok(())
}

/// What a dot is filled with.
#[derive(Clone, Copy)]
struct Fill {
    lane: Option<u8>,
}

#[tactic(auto, unfolding(crate::specs::Marks::fill_text))]
impl fmt::Display for Fill {
    ghost use Rattle.std.specs.Prelude.{Some};

    ghost output = { λ t. Some (Text.fill_text t.lane) };

    fn fmt<W: fmt::Write>(&self, f: &mut fmt::Formatter<W>) -> fmt::Result {
        match self.lane {
            Some(lane) => write!(f, "url(#l{lane})"),
            None => f.write_str("#bbb"),
        }
    }
}

/// Adds a dot.
fn add_dot(text: &mut String, lane: Option<u8>, mark: Mark) -> Result<(), NoMemory>
    ensures { OnOk result (string_bytes text.new ≡ string_bytes text.old ++ Text.dot_text lane mark) }
{
    let Mark { x, y, .. } = mark;
    let fill = Fill { lane };
    writeln!(
        text,
        "<circle class='b' cx='{x}' cy='{y}' r='3' fill='{fill}'/>"
    )?;
    Ok(())
}

/// Adds what a request's line ends with.
fn add_end(text: &mut String, how: WaitEnd, mark: Mark) -> Result<(), NoMemory>
    ensures { OnOk result (string_bytes text.new ≡ string_bytes text.old ++ Text.end_text how mark) }
{
    match how {
        WaitEnd::Removed => add_cross(text, mark),
        WaitEnd::Taken | WaitEnd::Open => Ok(()),
    }
}

impl Layout {
    /// Where the line of a request is.
    fn wait_y(&self, lane: u8, request: usize) -> u64
        ensures { result ≡ Text.wait_y self.now lane request }
    {
        self.strip_y(lane) + 4 + 3 * (request % 9) as u64
    }

    /// A mark at an entry.
    fn mark_at(&self, n: u32, y: u64) -> Mark
        ensures { result ≡ Text.mark_at self.now n y }
    {
        Mark {
            x: self.x_of(n),
            y,
            at: n,
        }
    }

    /// A bar from one entry to another.
    fn bar_at(&self, thread: u8, span: Span) -> Bar
        ensures { result ≡ Text.bar_at self.now thread span }
    {
        let x = self.x_of(span.start);
        Bar {
            x,
            y: self.thread_y(thread) + 2,
            width: self.x_of(span.end).saturating_sub(x) + 2,
            span,
        }
    }

    /// A line from one entry to another.
    fn line_at(&self, span: Span) -> Line
        ensures { result ≡ Text.line_at self.now span }
    {
        Line {
            x: self.x_of(span.start),
            y: self.wait_y(span.lane, span.request),
            to: self.x_of(span.end),
            span,
        }
    }

    /// Adds the line of a request that waits, with what it ends with.
    fn add_wait(&self, text: &mut String, span: Span, how: WaitEnd) -> Result<(), NoMemory>
        ensures { OnOk result (string_bytes text.new ≡ string_bytes text.old ++ Text.wait_text self.now span how) }
    {
        add_line(text, self.line_at(span))?;
        let y = self.wait_y(span.lane, span.request);
        add_end(text, how, self.mark_at(span.end, y))
    }

    /// Adds a shape.
    pub fn add_shape(&self, text: &mut String, shape: Shape) -> Result<(), NoMemory>
        ensures { OnOk result (string_bytes text.new ≡ string_bytes text.old ++ Text.shape_text self.now shape) }
    {
        match shape {
            Shape::Bar {
                thread,
                lane,
                request,
                start,
                end,
            } => {
                let span = Span {
                    request,
                    lane,
                    start,
                    end,
                };
                add_bar(text, self.bar_at(thread, span))
            }
            Shape::Wait {
                lane,
                request,
                start,
                end,
                how,
            } => {
                let span = Span {
                    request,
                    lane,
                    start,
                    end,
                };
                self.add_wait(text, span, how)
            }
            Shape::Full { lane, at } => add_tick(text, self.mark_at(at, self.strip_y(lane) + 2)),
            Shape::Rule { at } => add_rule(text, self.mark_at(at, self.bottom())),
            Shape::Dot { lane, at } => add_dot(text, lane, self.mark_at(at, self.bottom() + 10)),
        }
    }
}
