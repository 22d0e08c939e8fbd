//! Rows as data: reads each file NAME.rows of the folder that it runs in, makes the steps of its cases through the public calls, with reads
//! of each size, and tells which leave something else than they must. `tools/rows --help` has the form of a file.
#![tactic(auto)]

mod language;
mod lines;
mod running;
mod telling;
mod texts;

use lines::{begin_by, is_step, numbers, text};
use running::{Areas, Left, Setting, left_by};
use std::alloc::Global;
use std::fs;
use std::process::ExitCode;
use telling::{has_lengths, wanted};

/// The sizes of the reads that each case is made with.
const SIZES: [usize; 3] = [1, 7, 65_536];

/// How the lines in front of a case's steps begin.
const HEAD: &str = "#,== ,pieces ,A,B";

/// How the lines of a step begin.
const STEP: &str =
    "#,guard,sessions,follow,tokens,tree,schema,budget ,fail world ,fail read ,fail feed ,feeds ,length a ,length b ,= ,<,>,1,2,3,4,5,6,7,8,9";

// The names of the files of rows, in order. Here and below nothing is where memory or a file is wanting, or a line is of no form.
fn names(rt: &HostRuntime) -> Option<Vec<String>> {
    let mut names = Vec::new(rt.alloc());
    for entry in fs::read_dir(rt, ".").ok()? {
        let entry = entry.ok()?;
        if let Some(name) = entry.file_name().strip_suffix(".rows") {
            names.push(String::from_str(rt.alloc(), name).ok()?).ok()?;
        }
    }
    names.sort().ok()?;
    Some(names)
}

fn lines_of(alloc: Global, text: &str) -> Option<Vec<&str>> {
    let mut lines = Vec::new(alloc);
    for line in text.split('\n') {
        lines.push(line).ok()?;
    }
    Some(lines)
}

// How many cases and how many steps there are.
fn count(lines: &[&str]) -> (u64, u64) {
    let (mut cases, mut steps) = (0u64, 0u64);
    for line in lines {
        if line.starts_with("== ") {
            cases = cases.saturating_add(1);
        } else if is_step(line) {
            steps = steps.saturating_add(1);
        }
    }
    (cases, steps)
}

// Whether a case is for reads of a size.
fn is_for(alloc: Global, head: &[&str], size: usize) -> Option<bool> {
    let sizes = numbers(alloc, head, "pieces ")?;
    Some(sizes.is_empty() || sizes.as_slice().contains(&(size as u64)))
}

// What a step leaves within the first of its budgets of which something else is told than it must, or within the last.
fn left(alloc: Global, step: &[&str], areas: &Areas, size: usize, wanted: &[u8]) -> Option<Left> {
    let budgets = numbers(alloc, step, "budget ")?;
    let first = budgets.at(0).copied().unwrap_or(u64::MAX);
    let last = budgets.at(1).copied().unwrap_or(first);
    for budget in first..last {
        let left = left_by(alloc, step, areas, Setting { size, budget })?;
        if left.told.as_slice() != wanted {
            return Some(left);
        }
    }
    left_by(alloc, step, areas, Setting { size, budget: last })
}

fn tell(rt: &HostRuntime, step: &[&str], size: usize, wanted: &[u8], left: &Left) -> Option<()> {
    let wanted = str::from_utf8(wanted).unwrap_or("no text");
    let found = str::from_utf8(left.told.as_slice()).unwrap_or("no text");
    let (a, b) = (left.areas.a.len(), left.areas.b.len());
    println!(rt;
        "{}, by reads of {size}: wanted {wanted}\nfound {found}\nareas of {a} and {b}",
        step.first()?
    )
    .ok()
}

// Makes a step, and tells where it is wrong. What it leaves, and whether that is right.
fn make_step(rt: &HostRuntime, step: &[&str], areas: &Areas, size: usize) -> Option<(Areas, bool)> {
    let wanted = wanted(rt.alloc(), step)?;
    let left = left(rt.alloc(), step, areas, size, wanted.as_slice())?;
    let is_right = begin_by(step, STEP)
        && left.told.as_slice() == wanted.as_slice()
        && has_lengths(rt.alloc(), step, &left.areas)?;
    if !is_right {
        tell(rt, step, size, wanted.as_slice(), &left)?;
    }
    Some((left.areas, is_right))
}

// The areas of a case before its first step.
fn areas_of(alloc: Global, head: &[&str]) -> Option<Areas> {
    let (a, b) = (text(alloc, head, "A")?, text(alloc, head, "B")?);
    Some(Areas { a, b })
}

// Makes the steps of a case. Whether all are right.
fn make_case(rt: &HostRuntime, case: &[&str], size: usize) -> Option<bool> {
    let mut parts = case.chunk_by(|_, next| !is_step(next));
    let head = parts.next()?;
    let mut is_right = begin_by(head, HEAD);
    if !is_for(rt.alloc(), head, size)? {
        return Some(is_right);
    }
    let mut areas = areas_of(rt.alloc(), head)?;
    for step in parts {
        let (left, is_step_right) = make_step(rt, step, &areas, size)?;
        areas = left;
        is_right = is_right && is_step_right;
    }
    Some(is_right)
}

// Makes cases with reads of each size, and tells which are wrong. Whether none is.
fn make_cases(rt: &HostRuntime, name: &str, lines: &[&str]) -> Option<bool> {
    let mut is_right = true;
    for case in lines.chunk_by(|_, next| !next.starts_with("== ")) {
        for size in SIZES {
            if make_case(rt, case, size) != Some(true) {
                println!(rt; "{name}, {}: wrong, or of no form", case.first()?).ok()?;
                is_right = false;
            }
        }
    }
    Some(is_right)
}

// Makes the cases of a file. Whether none is wrong.
fn make_file(rt: &HostRuntime, name: &str) -> Option<bool> {
    let path = format!(in rt.alloc(); "{name}.rows").ok()?;
    let text = fs::read_to_string(rt, path.as_str()).ok()?;
    let lines = lines_of(rt.alloc(), text.as_str())?;
    let is_right = make_cases(rt, name, lines.as_slice())?;
    let (cases, steps) = count(lines.as_slice());
    println!(rt; "{name}: {cases} cases, {steps} steps").ok()?;
    Some(is_right)
}

// Makes the cases of each file. Whether none is wrong.
fn make_all(rt: &HostRuntime) -> Option<bool> {
    let mut is_right = true;
    for name in names(rt)?.iter() {
        is_right = make_file(rt, name.as_str())? && is_right;
    }
    Some(is_right)
}

fn main(rt: HostRuntime) -> ExitCode {
    match make_all(&rt) {
        Some(true) => ExitCode::from(0),
        _ => ExitCode::from(1),
    }
}
