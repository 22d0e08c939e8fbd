//! How the file of a feed is opened: behind its end, where its last line is one to write behind.

ghost use Rattle.std.specs.Prelude.{ℕ, List, Some, Ok, IfOk, IfErr, OnOk, MatchOption};
ghost use Rattle.std.specs.declared.fs.options.OpenOptions.{OpenOptions};
ghost use Rattle.pgs_world_files.specs.Calls.{AsksToAppend};
ghost use Rattle.pgs_world_files.specs.FeedCalls.{HasEnd, IsLookedAt, IsNoStream, IsUnseen, MayBeRead, StreamIs};
ghost use Rattle.pgs_world_files.specs.FeedFaults.{IsFeedFault, IsLookFault};
ghost use Rattle.pgs_world_files.specs.Faults.{IsFault};
ghost use Rattle.pgs_world_files.specs.declared.access.Access.TheVariants.{Append};
ghost use Rattle.pgs_world_files.specs.declared.found.Found.{Found};

use crate::feed_cause::FeedOpenFault;
use crate::feed_line::{LINE_LIMIT, read_end};
use crate::system_opening::{RIGHTS, to_place};
use crate::{FeedCause, FileCause, Found, OpenFault, System};
use std::alloc::Global;
use std::fs::OpenOptions;
use std::io::ErrorKind;
use std::os::unix::fs::OpenOptionsExt;

// The last line of a feed, its line feed and the one before it are among so many last bytes.
const END_LIMIT: u64 = LINE_LIMIT as u64 + 2;

// Options to write behind the end, and to make the file where it is absent.
fn to_append() -> OpenOptions
    ensures { AsksToAppend result }
{
    let mut how = OpenOptions::new();
    how.mode(RIGHTS);
    how.read(false).write(false).append(true);
    how.create(true).truncate(false).create_new(false);
    how
}

/// The file of a name, open behind its end, and made empty where it is absent.
pub(crate) fn open_behind<S: System>(system: &S, name: &str) -> Result<S::File, OpenFault>
    ensures opened { IfOk result (λ file. (how : OpenOptions) × AsksToAppend how × S.facts.opened how name.now (Ok file)) }
    ensures fault { IfErr result (λ made. (opened : List Found) → IsFault S.facts opened name.now Append made) }
{
    let how = to_append();
    Ok(system.open(&how, name)?)
}

// Whether a file is the regular one of a standard stream.
fn is_stream<S: System>(system: &S, stream: &str, found: Found) -> bool
    ensures { StreamIs S.facts stream.now found result }
{
    match system.find(stream) {
        Ok(there) => there.is_regular && there.is_same(found),
        Err(_) => false,
    }
}

/// An error where a file is the regular one of standard input or output: a feed there would be its own input, or mix its lines with others.
pub(crate) fn check_streams<S: System>(
    system: &S,
    file: &S::File,
    found: Found,
) -> Result<(), FeedOpenFault>
    requires { S.facts.found file.now (Ok found) }
    ensures apart { OnOk result (IsNoStream S.facts found) }
    ensures fault { IfErr result (λ made. (opened : List Found) → (name : List ℕ) → IsFeedFault S.facts opened name made) }
{
    if is_stream(system, "/dev/stdin", found) || is_stream(system, "/dev/stdout", found) {
        return Err(FeedOpenFault::Feed(FeedCause::Stream));
    }
    Ok(())
}

// The file of a name, opened to be read, where the user may.
fn open_to_look<S: System>(system: &S, name: &str) -> Result<Option<S::File>, OpenFault>
    ensures looks { IfOk result (MayBeRead S.facts name.now) }
    ensures fault { IfErr result (IsLookFault S.facts name.now) }
{
    let how = to_place(true);
    match system.open(&how, name) {
        Ok(look) => Ok(Some(look)),
        Err(error) => match error.kind() {
            ErrorKind::PermissionDenied => Ok(None),
            _ => Err(OpenFault::from(error)),
        },
    }
}

// The last bytes of a file that is open to be read, and the same as this.
fn end_of<S: System>(
    system: &S,
    alloc: Global,
    file: &S::File,
    mut look: S::File,
    name: &str,
) -> Result<Vec<u8>, OpenFault>
    requires { MayBeRead S.facts name.now (Some look) }
    ensures end { IfOk result (λ end. HasEnd S.facts name.now file.now end.items) }
    ensures fault { IfErr result (IsLookFault S.facts name.now) }
{
    let this = system.found(file)?;
    let now = system.found(&look)?;
    if !this.is_same(now) {
        return Err(OpenFault::File(FileCause::Replaced));
    }
    let size = now.len.min(END_LIMIT);
    let Ok(mut end) = Vec::from_elem(alloc, 0u8, size as usize) else {
        return Err(OpenFault::Memory);
    };
    let count = system.read_at(&mut look, now.len - size, end.as_mut_slice())?;
    if count < end.len() {
        return Err(OpenFault::File(FileCause::Short));
    }
    Ok(end)
}

// The last bytes of a file, where it is regular and may be read.
fn look<S: System>(
    system: &S,
    alloc: Global,
    file: &S::File,
    name: &str,
) -> Result<Option<Vec<u8>>, OpenFault>
    ensures end { IfOk result (λ end. MatchOption end (IsUnseen S.facts name.now file.now) (λ bytes. HasEnd S.facts name.now file.now bytes.items)) }
    ensures fault { IfErr result (IsLookFault S.facts name.now) }
{
    let found = system.found(file)?;
    if !found.is_regular {
        return Ok(None);
    }
    match open_to_look(system, name)? {
        Some(look) => Ok(Some(end_of(system, alloc, file, look, name)?)),
        None => Ok(None),
    }
}

/// The number of the last line of a feed's file, where the file is regular and may be read. An error where its end is none to write behind.
pub(crate) fn last_of<S: System>(
    system: &S,
    alloc: Global,
    file: &S::File,
    name: &str,
) -> Result<Option<u64>, FeedOpenFault>
    ensures looked { IfOk result (IsLookedAt S.facts name.now file.now) }
    ensures fault { IfErr result (λ made. (opened : List Found) → IsFeedFault S.facts opened name.now made) }
{
    let Some(end) = look(system, alloc, file, name)? else {
        return Ok(None);
    };
    match read_end(end.as_slice()) {
        Ok(last) => Ok(last),
        Err(cause) => Err(FeedOpenFault::Feed(cause)),
    }
}
