//! The picture of a run.
ghost use Rattle.std.specs.Prelude.{◌≡◌, ◌≤◌, ◌++◌, ◌+◌, ◌<◌, ◌^◌, count_by, length, IfOk, OnOk, string_bytes};
ghost use Rattle.std.specs.List.{flat_map};
ghost use Rattle.orb_base.specs.Pool.{HasLanes};
ghost use Rattle.trace_reading.specs.Traces.{IsTrace};
ghost use Rattle.trace_picture.specs.Marks.{shape_text};
ghost use Rattle.trace_picture.specs.Pictures as Text;

use crate::drawing::shapes_of;
use crate::layout::Layout;
use crate::lines::{first_lines, later_lines};
use crate::shape::{Shape, WaitEnd};
use crate::view::{Counts, MAX_DRAWN, Title, View};
use orb_base::{NoMemory, PoolSpec};
use std::alloc::Global;
use std::fmt::Write;
use trace_lines::TraceLine;
use trace_runs::Run;

/// How many requests a thread took.
fn count_bars(shapes: &[Shape]) -> usize
    ensures { result ≡ count_by Text.is_bar shapes.now }
{
    shapes.iter().filter(|s| is_bar(s)).count()
}

/// Whether a shape is a bar.
fn is_bar(shape: &Shape) -> bool
    ensures { result ≡ Text.is_bar shape.now }
{
    matches!(shape, Shape::Bar { .. })
}

/// Whether a shape is the bar of a thread that is lent.
fn is_lent(layout: &Layout, shape: &Shape) -> bool
    ensures { result ≡ Text.is_lent layout.now shape.now }
{
    match shape {
        Shape::Bar { thread, lane, .. } => !(layout.home_of(*thread) == *lane),
        _ => false,
    }
}

/// How many requests were taken by a thread that is lent.
fn count_lent(layout: &Layout, shapes: &[Shape]) -> usize
    ensures { result ≡ count_by (Text.is_lent layout.now) shapes.now }
{
    shapes.iter().filter(|s| is_lent(layout, s)).count()
}

/// Whether a shape is the line of a request that waited.
fn is_wait(shape: &Shape) -> bool
    ensures { result ≡ Text.is_wait shape.now }
{
    matches!(shape, Shape::Wait { .. })
}

/// How many requests waited.
fn count_waits(shapes: &[Shape]) -> usize
    ensures { result ≡ count_by Text.is_wait shapes.now }
{
    shapes.iter().filter(|s| is_wait(s)).count()
}

/// Whether a shape is the line of a request that was withdrawn.
fn is_removed(shape: &Shape) -> bool
    ensures { result ≡ Text.is_removed shape.now }
{
    match shape {
        Shape::Wait { how, .. } => matches!(how, WaitEnd::Removed),
        _ => false,
    }
}

/// How many requests were withdrawn.
fn count_removed(shapes: &[Shape]) -> usize
    ensures { result ≡ count_by Text.is_removed shapes.now }
{
    shapes.iter().filter(|s| is_removed(s)).count()
}

/// Whether a shape is of a request that was refused.
fn is_full(shape: &Shape) -> bool
    ensures { result ≡ Text.is_full shape.now }
{
    matches!(shape, Shape::Full { .. })
}

/// How many requests were refused.
fn count_full(shapes: &[Shape]) -> usize
    ensures { result ≡ count_by Text.is_full shapes.now }
{
    shapes.iter().filter(|s| is_full(s)).count()
}

/// Adds which entries are shown of how many.
fn add_title(text: &mut String, title: Title) -> Result<(), NoMemory>
    ensures { OnOk result (string_bytes text.new ≡ string_bytes text.old ++ Text.title_text title) }
{
    let Title {
        run,
        first,
        count,
        entries,
        ..
    } = title;
    writeln!(
        text,
        "<text class='t' x='10' y='22'>run {run}: {count} of {entries} entries, from entry {first}</text>"
    )?;
    Ok(())
}

/// What is counted of shapes. Five passes over them.
fn counts_of(layout: &Layout, shapes: &[Shape]) -> Counts
    ensures { result ≡ Text.counts_of layout.now shapes.now }
{
    Counts {
        bars: count_bars(shapes),
        lent: count_lent(layout, shapes),
        waits: count_waits(shapes),
        removed: count_removed(shapes),
        full: count_full(shapes),
    }
}

/// Adds these counts, and what x is.
fn add_counts_line(text: &mut String, counts: Counts) -> Result<(), NoMemory>
    ensures { OnOk result (string_bytes text.new ≡ string_bytes text.old ++ Text.counts_line counts) }
{
    let Counts {
        bars,
        lent,
        waits,
        removed,
        full,
    } = counts;
    writeln!(
        text,
        "<text x='10' y='42'>requests: taken {bars} (by a lent thread {lent}), waited {waits}, \
withdrawn {removed}, refused {full}</text>\n<text x='10' y='62'>x is the number of the entry in the trace, and not time</text>"
    )?;
    Ok(())
}

/// Adds what is counted, and what x is.
fn add_counts(text: &mut String, layout: &Layout, shapes: &[Shape]) -> Result<(), NoMemory>
    ensures { OnOk result (string_bytes text.new ≡ string_bytes text.old ++ Text.counts_text layout.now shapes.now) }
{
    add_counts_line(text, counts_of(layout, shapes))
}

/// Adds that an entry is wrong, where one is.
fn add_note(text: &mut String, title: Title) -> Result<(), NoMemory>
    ensures { OnOk result (string_bytes text.new ≡ string_bytes text.old ++ Text.note_text title) }
{
    let legal = title.legal;
    if legal == title.entries {
        return Ok(());
    }
    writeln!(
        text,
        "<text class='n' x='10' y='82'>entry {legal} is wrong: it is not drawn, and what comes after it</text>"
    )?;
    Ok(())
}

/// Adds shapes.
fn add_shapes(text: &mut String, layout: &Layout, shapes: &[Shape]) -> Result<(), NoMemory>
    ensures { OnOk result (string_bytes text.new ≡ string_bytes text.old ++ flat_map (shape_text layout.now) shapes.now) }
{
    for shape in shapes {
        layout.add_shape(text, *shape)?;
    }
    Ok(())
}

/// The text of a picture with these shapes.
fn whole(alloc: Global, layout: &Layout, shapes: &[Shape], title: Title) -> Result<String, NoMemory>
    ensures { IfOk result (λ text. string_bytes text ≡ Text.whole_text layout.now shapes.now title) }
{
    let mut text = String::new(alloc);
    layout.add_ground(&mut text)?;
    add_title(&mut text, title)?;
    add_note(&mut text, title)?;
    add_counts(&mut text, layout, shapes)?;
    add_shapes(&mut text, layout, shapes)?;
    layout.add_legend(&mut text)?;
    Ok(text)
}

/// The picture of these lines.
fn draw_lines(
    alloc: Global,
    pool: &PoolSpec,
    lines: &[TraceLine],
    legal: usize,
    view: View,
) -> Result<String, NoMemory>
    requires lanes { HasLanes pool.now.lanes }
    requires few { length lines.now < 2 ^ 32 }
    ensures { IfOk result (λ text. string_bytes text ≡ Text.picture_of pool.now lines.now legal view) }
{
    let counted = first_lines(lines, legal);
    let before = first_lines(counted, view.from as usize);
    let most = view.entries.min(MAX_DRAWN) as usize;
    let range = first_lines(later_lines(counted, view.from as usize), most);
    let shapes = shapes_of(alloc, before, range)?;
    let layout = Layout::new(alloc, pool, view.from, range.len() as u32)?;
    let title = Title {
        run: view.run,
        first: view.from,
        count: range.len(),
        legal,
        entries: lines.len(),
    };
    whole(alloc, &layout, shapes.as_slice(), title)
}

/// The picture of a run of which so many entries come before the first wrong one: an SVG 1.1 file. One pass over the entries before the
/// last one that is shown; where a request ceases to wait the work grows with what waits. At most `MAX_DRAWN` entries are shown, so the
/// text grows with them and with what goes on before them; memory with the text and with the requests that were offered.
#[tactic(auto, using(crate::proofs::Wholes::has_lanes, crate::proofs::Wholes::few_lines))]
pub fn picture(alloc: Global, run: &Run, legal: usize, view: View) -> Result<String, NoMemory>
    requires { IsTrace run.now }
    ensures { IfOk result (λ text. string_bytes text ≡ Text.picture_text run.now legal view) }
{
    draw_lines(alloc, &run.pool, run.lines.as_slice(), legal, view)
}
