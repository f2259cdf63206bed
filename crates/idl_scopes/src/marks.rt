//! Which of many numbers are new.
ghost use Rattle.std.specs.Prelude.{◌≡◌, ◌++◌, ◌==◌, ◌||◌, ℕ, IfOk, OnOk, not, true};
ghost use Rattle.std.specs.List.{list_any};
ghost use Rattle.idl_scopes.specs.Each.{and_each};
ghost use Rattle.idl_scopes.specs.Marks.{is_marked};

use orb_base::NoMemory;
use std::alloc::Global;

/// Numbers that are new after others.
#[derive(Drop)]
pub(crate) struct News {
    /// Each of them once.
    pub items: Vec<usize>,
    /// Whether these are all that were asked for.
    pub all: bool,
}

/// Marks a number, and says whether it wasn't marked.
fn mark(marks: &mut Vec<bool>, number: usize) -> Result<bool, NoMemory>
    ensures new { IfOk result (λ b. b ≡ not (is_marked marks.old.items number)) }
    ensures set { OnOk result ((n : ℕ) → is_marked marks.new.items n ≡ ((n == number) || is_marked marks.old.items n)) }
{
    let Some(len) = number.checked_add(1) else {
        return Err(NoMemory);
    };
    if marks.len() < len {
        marks.resize(len, false)?;
    }
    let marked = marks[number];
    marks[number] = true;
    Ok(!marked)
}

/// Marks for these numbers.
fn marks_of(alloc: Global, numbers: &[usize]) -> Result<Vec<bool>, NoMemory>
    ensures { IfOk result (λ marks. (n : ℕ) → is_marked marks.items n ≡ list_any (λ x. n == x) numbers.now) }
{
    let mut marks = Vec::new(alloc);
    for number in numbers {
        mark(&mut marks, *number)?;
    }
    Ok(marks)
}

/// Those of several numbers that are new after others. A few steps for each number, and an octet for each number up to
/// the greatest.
pub(crate) fn news_of(alloc: Global, before: &[usize], several: &[usize]) -> Result<News, NoMemory>
    ensures items { IfOk result (λ n. and_each before.now several.now ≡ before.now ++ n.items.items) }
    ensures all { IfOk result (λ n. n.all ≡ true → n.items.items ≡ several.now) }
{
    let mut marks = marks_of(alloc, before)?;
    let mut items = Vec::new(alloc);
    let mut all = true;
    for number in several {
        if mark(&mut marks, *number)? {
            items.push(*number)?;
        } else {
            all = false;
        }
    }
    Ok(News { items, all })
}
