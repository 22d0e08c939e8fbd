//! Files that are opened by their names: areas, locks, what a new store isn't made over, names that are lost, and behind what a feed stands.

use crate::texts::{halves, number, put_unescaped};
use pgs_base::Seed;
use pgs_world::{Area, AreaFault, Feed, World};
use pgs_world_files::{
    Access, AreaFile, AreaFiles, FileWorld, Opening, StoreAccess, StoreFile, SystemFile,
    SystemOpening,
};
use std::os::unix::fs::MetadataExt;
use std::{fs, io};

type Real<'a> = FileWorld<Vec<u8>, StoreFile<SystemFile<'a, HostRuntime>>>;

/// The files that are open: by a first and by a second run.
#[derive(Drop)]
pub struct Opened<'a> {
    first: Option<Real<'a>>,
    second: Option<Real<'a>>,
}

impl<'a> Opened<'a> {
    pub fn new() -> Opened<'a> {
        Opened {
            first: None,
            second: None,
        }
    }
}

// A world over the store of a name, opened by a run of its own.
fn store_of<'a>(rt: &'a HostRuntime, name: &str, access: &str) -> Option<Real<'a>> {
    let access = match access.as_bytes().first()? {
        b'r' => StoreAccess::Read,
        b'a' => StoreAccess::Append,
        b'o' => StoreAccess::WriteOver,
        _ => StoreAccess::Make,
    };
    let mut system = SystemOpening::new(rt, rt.alloc());
    let areas = AreaFiles::open(&mut system, rt.alloc(), name, access).ok()?;
    Some(FileWorld::new(areas, Vec::new(rt.alloc()), Seed::Fixed))
}

// A world whose area A is the file of a name, and whose area B has none.
fn file_of<'a>(rt: &'a HostRuntime, name: &str, access: &str) -> Option<Real<'a>> {
    let access = match access.as_bytes().first()? {
        b'r' => Access::Read,
        b'w' => Access::Write,
        _ => Access::Make,
    };
    let name = String::from_str(rt.alloc(), name).ok()?;
    let mut system = SystemOpening::new(rt, rt.alloc());
    let a = system.open_area(name, access).ok()?;
    let areas = AreaFiles::new(a, AreaFile::absent(None));
    Some(FileWorld::new(areas, Vec::new(rt.alloc()), Seed::Fixed))
}

// A call that changes an area or asks its length, by the letter that it begins with.
fn called(world: &mut Real<'_>, call: u8, area: Area, rest: &str) -> Result<u64, AreaFault> {
    let (at, text) = halves(rest);
    let at = number(at);
    match call {
        b'c' => world.cut(area, at)?,
        b'w' => world.write_at(area, at, text.as_bytes())?,
        b's' => world.sync(area)?,
        _ => return world.len(area),
    }
    Ok(0)
}

// Three bytes of an area.
fn bytes_from(world: &mut Real<'_>, area: Area, at: u64) -> Result<[u8; 3], AreaFault> {
    let mut bytes = [0; 3];
    world.read_at(area, at, &mut bytes)?;
    Ok(bytes)
}

// Makes a call on the open files of a run, and puts its answer.
fn put_called(out: &mut String, world: &mut Real<'_>, call: u8, rest: &str) -> Option<()> {
    let (word, rest) = halves(rest);
    let area = if word == "A" { Area::A } else { Area::B };
    match call {
        b'b' => write!(out, "{:?}, ", bytes_from(world, area, number(rest))).ok(),
        _ => write!(out, "{:?}, ", called(world, call, area, rest)).ok(),
    }
}

// The files that a call opens, by the letter that it begins with; none for the end of a run.
fn files_of<'a>(rt: &'a HostRuntime, call: u8, rest: &str) -> Option<Real<'a>> {
    let (name, access) = halves(rest);
    match call {
        b'o' => store_of(rt, name, access),
        b'f' => file_of(rt, name, access),
        _ => None,
    }
}

// Opens the files of a run, ends it, or makes a call on its files; and puts the cause of their last fault.
fn put_run<'a>(
    out: &mut String,
    rt: &'a HostRuntime,
    run: &mut Option<Real<'a>>,
    call: u8,
    rest: &str,
) -> Option<()> {
    if matches!(call, b'o' | b'f' | b'e') {
        *run = files_of(rt, call, rest);
    } else {
        put_called(out, run.as_mut()?, call, rest)?;
    }
    match run {
        Some(world) => write!(out, "{:?}", world.area_cause()).ok(),
        None => out.push_str("ended").ok(),
    }
}

// What is made of a name outside of all runs, by the letter that it begins with.
fn disk(rt: &HostRuntime, call: u8, name: &str, text: &str) -> io::Result<()> {
    match call {
        b'h' => fs::write(rt, name, text),
        b'e' => fs::remove_file(rt, name),
        b'l' => fs::hard_link(rt, name, text),
        b'm' => fs::rename(rt, name, text),
        b'f' => fs::create_dir(rt, name),
        _ => fs::remove_dir(rt, name),
    }
}

// The text of a file.
fn put_text(out: &mut String, rt: &HostRuntime, name: &str) -> Option<()> {
    let text = fs::read_to_string(rt, name).ok()?;
    write!(out, "{:?}", text.as_str()).ok()
}

// The rights of a file, as an octal number.
fn put_rights(out: &mut String, rt: &HostRuntime, name: &str) -> Option<()> {
    let rights = fs::metadata(rt, name).ok()?.mode() & 0o777;
    write!(out, "{rights:o}").ok()
}

// Makes something of a name, and puts whether that fails.
fn put_made(out: &mut String, rt: &HostRuntime, call: u8, name: &str, text: &str) -> Option<()> {
    let mut meant = String::new(rt.alloc());
    put_unescaped(&mut meant, text)?;
    let fails = disk(rt, call, name, meant.as_str()).is_err();
    out.push_str(if fails { "fails" } else { "made" }).ok()
}

// What stands on the disk, or whether what is made there fails.
fn put_disk(out: &mut String, rt: &HostRuntime, rest: &str) -> Option<()> {
    let (call, rest) = halves(rest);
    let (name, text) = halves(rest);
    match *call.as_bytes().first()? {
        b't' => put_text(out, rt, name),
        b'r' => put_rights(out, rt, name),
        call => put_made(out, rt, call, name, text),
    }
}

/// The line of a second commit.
const LINE: &[u8] = b"{\"commit\":2,\"ops\":[]}\n";

// Puts the line into the feed of a name, and puts why that fails.
fn put_feed(
    out: &mut String,
    system: &mut SystemOpening<'_, HostRuntime>,
    name: &str,
) -> Option<()> {
    let mut feed = system.open_feed(name).ok()?;
    let _put = feed.put(LINE);
    write!(out, "{:?};", feed.cause()).ok()
}

// The same of these names, one after the other, in one run.
fn put_feeds(out: &mut String, rt: &HostRuntime, names: &str) -> Option<()> {
    let mut system = SystemOpening::new(rt, rt.alloc());
    for name in names.split(' ') {
        put_feed(out, &mut system, name)?;
    }
    Some(())
}

/// Puts what a call is answered.
pub fn answer<'a>(
    out: &mut String,
    opened: &mut Opened<'a>,
    rt: &'a HostRuntime,
    call: &str,
) -> Option<()> {
    let (word, rest) = halves(call);
    let call = *word.as_bytes().first()?;
    let (number, behind) = halves(rest);
    match (call, number) {
        (b'd', _) => put_disk(out, rt, rest),
        (b'p', _) => put_feeds(out, rt, rest),
        (_, "1") => put_run(out, rt, &mut opened.first, call, behind),
        _ => put_run(out, rt, &mut opened.second, call, behind),
    }
}
