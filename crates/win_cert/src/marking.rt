//! Marks of the entries on which entries rest.

ghost use Rattle.std.specs.Prelude.{◌≡◌, ◌<◌, All, IfOk, length};
ghost use Rattle.win_cert.specs.Cuts.{premises};
ghost use Rattle.win_cert.specs.Cutting.{AreMarks, IsClosureOf, IsMarkedBy, NameEarlier};

use conn_store::{Cause, Entry};
use std::alloc::{AllocError, Global};

/// Marks the entries with these numbers and those on which they rest, and no other.
pub(crate) fn marked(
    alloc: Global,
    entries: &[Entry],
    numbers: &[u32],
) -> Result<Vec<bool>, AllocError>
    requires below { All (λ n. n < length entries.now) numbers.now }
    requires earlier { NameEarlier entries.now }
    ensures { IfOk result (λ marks. AreMarks entries.now numbers.now marks.items) }
{
    let mut marks = vec![in alloc; false; entries.len()]?;
    mark_all(&mut marks, numbers);
    mark_premises(entries, &mut marks);
    Ok(marks)
}

// Marks all entries on which those rest that are marked.
fn mark_premises(entries: &[Entry], marks: &mut Vec<bool>)
    requires number { length marks.old.items ≡ length entries.now }
    requires earlier { NameEarlier entries.now }
    ensures { IsClosureOf entries.now marks.old.items marks.new.items }
{
    let mut left = entries.len();
    'entries: while 0 < left {
        left -= 1;
        if marks[left] {
            mark(marks, entries[left].cause);
        }
    }
}

// Marks the premises of an entry with that cause.
fn mark(marks: &mut Vec<bool>, cause: Cause)
    requires { All (λ i. i < length marks.old.items) (premises cause) }
    ensures { IsMarkedBy marks.old.items (premises cause) marks.new.items }
{
    match cause {
        Cause::Adjacent => {}
        Cause::AndGroup(i, j) => mark_all(marks, &[i, j]),
        Cause::AndEmpty(i, j) => mark_all(marks, &[i, j]),
        Cause::Or(numbers, count) => {
            if count == 2 {
                mark_all(marks, &[numbers[0], numbers[1]]);
            } else {
                mark_all(marks, &[numbers[0], numbers[1], numbers[2]]);
            }
        }
    }
}

// Marks the entries with these numbers.
fn mark_all(marks: &mut Vec<bool>, numbers: &[u32])
    requires { All (λ i. i < length marks.old.items) numbers.now }
    ensures { IsMarkedBy marks.old.items numbers.now marks.new.items }
{
    'numbers: for &number in numbers {
        marks[number as usize] = true;
    }
}
