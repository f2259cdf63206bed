//! Parts of a run's lines.
ghost use Rattle.std.specs.Prelude.{◌≡◌, take, drop};

use trace_lines::TraceLine;

/// The first lines, so many, or all where there are fewer.
pub fn first_lines(lines: &[TraceLine], n: usize) -> &[TraceLine]
    ensures { result.now ≡ take n lines.now }
{
    let (first, _) = lines.split_at(n.min(lines.len()));
    first
}

/// What comes after the first lines.
pub fn later_lines(lines: &[TraceLine], n: usize) -> &[TraceLine]
    ensures { result.now ≡ drop n lines.now }
{
    let (_, later) = lines.split_at(n.min(lines.len()));
    later
}
