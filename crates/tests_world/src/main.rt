//! Tests of the outside, as a program: `pgs_world_streams` and `pgs_world_files` over real files and over ones that fail, the words of a
//! command line, and a second machine over lines, which shows that a command plugs in.
//!
//! It makes the calls that stand in the files of `data/`, in order, and tells each whose answer isn't the one behind its ` => `; of a file it
//! tells how many calls there are. A line without ` => ` says something to the reader alone.
//!
//! `stopping` has a file and an output that tell what a stop may leave. `counting` has the machine: it counts lines, ends the run at a line
//! that is a point, and puts several pieces at the end of the input. What it tells is the definition `counting` (`specs/Counting.antt`), by
//! the clauses that hold for every machine.
#![tactic(auto)]

mod counting;
mod doubles;
mod failing;
mod files;
mod flaky;
mod lines;
mod slow;
mod stopping;
mod texts;
mod words;

use files::Opened;
use std::fs;
use std::process::ExitCode;

/// What the calls of a file are made on.
#[derive(Clone, Copy)]
enum Theme {
    /// Files by their names.
    Files,
    /// Readers, writers and files of these tests, which fail.
    Doubles,
    /// The machine over lines.
    Lines,
    /// The words of a command line.
    Words,
}

const FILES: [(&str, Theme); 7] = [
    ("areas.calls", Theme::Files),
    ("locks.calls", Theme::Files),
    ("opening.calls", Theme::Files),
    ("feeds.calls", Theme::Files),
    ("doubles.calls", Theme::Doubles),
    ("lines.calls", Theme::Lines),
    ("words.calls", Theme::Words),
];

// Puts what a call is answered. Here and below nothing is where memory is wanting, or a line is of no form.
fn answer<'a>(
    out: &mut String,
    opened: &mut Opened<'a>,
    rt: &'a HostRuntime,
    theme: Theme,
    call: &str,
) -> Option<()> {
    match theme {
        Theme::Files => files::answer(out, opened, rt, call),
        Theme::Doubles => doubles::answer(out, rt, call),
        Theme::Lines => lines::answer(out, rt.alloc(), call),
        Theme::Words => words::answer(out, rt.alloc(), call),
    }
}

// Makes a call, and tells it where its answer isn't the wanted one. Whether it is.
fn make<'a>(
    rt: &'a HostRuntime,
    opened: &mut Opened<'a>,
    theme: Theme,
    call: &str,
    wanted: &str,
) -> bool {
    let mut found = String::new(rt.alloc());
    let is_right = answer(&mut found, opened, rt, theme, call).is_some()
        && found.as_str() == wanted;
    if !is_right {
        let _told = println!(rt; "{call}\nwanted {wanted}\nfound {found}");
    }
    is_right
}

// Makes the calls of a file. Whether all are answered as they must.
fn make_file(rt: &HostRuntime, name: &str, theme: Theme) -> Option<bool> {
    let text = fs::read_to_string(rt, name).ok()?;
    let mut opened = Opened::new();
    let (mut count, mut is_right) = (0u64, true);
    for line in text.split_terminator('\n') {
        if let Some((call, wanted)) = line.split_once(" => ") {
            is_right = make(rt, &mut opened, theme, call, wanted) && is_right;
            count = count.saturating_add(1);
        }
    }
    println!(rt; "{name}: {count} calls").ok()?;
    Some(is_right)
}

fn main(rt: HostRuntime) -> ExitCode {
    let mut is_right = true;
    for (name, theme) in FILES {
        is_right = make_file(&rt, name, theme) == Some(true) && is_right;
    }
    ExitCode::from(if is_right { 0 } else { 1 })
}
