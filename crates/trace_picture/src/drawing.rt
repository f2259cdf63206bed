//! The shapes of a run.
ghost use Rattle.std.specs.Prelude.{◌≡◌, ◌++◌, ◌+◌, ◌<◌, ◌^◌, length, map, IfOk, OnOk};
ghost use Rattle.trace_picture.specs.Shapes as Spec;
ghost use Rattle.trace_picture.specs.Scenes.{no_scene, bar_to as bar_to_lem, wait_to as wait_to_lem};

use crate::going::{Running, Waiting};
use crate::scene::{Scene, bar_to, wait_to};
use crate::shape::{Shape, WaitEnd};
use orb_base::{List, NoMemory};
use std::alloc::Global;
use trace_lines::TraceLine;

/// Puts the shape of an entry after the others.
fn put_drawn(shapes: &mut List<Shape>, shape: Option<Shape>) -> Result<(), NoMemory>
    ensures { OnOk result (shapes.new.items ≡ shapes.old.items ++ Spec.drawn shape) }
{
    match shape {
        Some(shape) => match shapes.push(shape) {
            Ok(()) => Ok(()),
            Err(_) => Err(NoMemory),
        },
        None => Ok(()),
    }
}

/// Goes over lines without drawing them, of which the first is the entry of this number.
fn pass_over(scene: &mut Scene, first: u32, lines: &[TraceLine]) -> Result<(), NoMemory>
    requires { first + length lines.now < 2 ^ 32 }
    ensures { OnOk result (scene.new ≡ Spec.scene_after scene.old first lines.now) }
{
    for (i, line) in lines.iter().enumerate() {
        scene.draw(first + i as u32, &line.action)?;
    }
    Ok(())
}

/// Puts the bar of each request that a thread carries out after the others.
fn put_bars(shapes: &mut List<Shape>, running: &[Running], n: u32) -> Result<(), NoMemory>
    ensures { OnOk result (shapes.new.items ≡ shapes.old.items ++ map (bar_to_lem n) running.now) }
{
    for r in running {
        put_drawn(shapes, Some(bar_to(n, r)))?;
    }
    Ok(())
}

/// Puts the line of each request that waits after the others.
fn put_waits(shapes: &mut List<Shape>, waiting: &[Waiting], n: u32) -> Result<(), NoMemory>
    ensures { OnOk result (shapes.new.items ≡ shapes.old.items ++ map (wait_to_lem n WaitEnd.Open) waiting.now) }
{
    for w in waiting {
        put_drawn(shapes, Some(wait_to(n, WaitEnd::Open, w)))?;
    }
    Ok(())
}

/// Puts what still goes on after the others.
fn put_unfinished(shapes: &mut List<Shape>, scene: &Scene, n: u32) -> Result<(), NoMemory>
    ensures { OnOk result (shapes.new.items ≡ shapes.old.items ++ Spec.unfinished scene.now n) }
{
    put_bars(shapes, scene.running(), n)?;
    put_waits(shapes, scene.waiting(), n)
}

/// Puts the shapes of lines, of which the first is the entry of this number, after the others.
fn put_shapes(
    shapes: &mut List<Shape>,
    scene: &mut Scene,
    first: u32,
    lines: &[TraceLine],
) -> Result<(), NoMemory>
    requires { first + length lines.now < 2 ^ 32 }
    ensures { OnOk result (shapes.new.items ≡ shapes.old.items ++ Spec.shapes scene.old first lines.now) }
{
    for (i, line) in lines.iter().enumerate() {
        let shape = scene.draw(first + i as u32, &line.action)?;
        put_drawn(shapes, shape)?;
    }
    put_unfinished(shapes, scene, first + lines.len() as u32)
}

/// The shapes of lines of a run that come after these ones. One pass over all; where a request ceases to wait the work grows with what
/// waits. Memory grows with the requests, and with the shapes.
pub fn shapes_of(
    alloc: Global,
    before: &[TraceLine],
    lines: &[TraceLine],
) -> Result<List<Shape>, NoMemory>
    requires { length before.now + length lines.now < 2 ^ 32 }
    ensures { IfOk result (λ shapes. shapes.items
        ≡ Spec.shapes (Spec.scene_after no_scene 0 before.now) (length before.now) lines.now) }
{
    let mut scene = Scene::new(alloc);
    let mut shapes = List::new(alloc);
    pass_over(&mut scene, 0, before)?;
    put_shapes(&mut shapes, &mut scene, before.len() as u32, lines)?;
    Ok(shapes)
}
