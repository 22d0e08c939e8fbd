//! The check of a text that was read whole.

ghost use Rattle.std.specs.Prelude.{◌≡◌, true};
ghost use Rattle.pgs_command.specs.Calls.{fails_world};
ghost use Rattle.pgs_resolve.specs.SchemaOf.{schema, schema_of};
ghost use Rattle.pgs_run_check_schema.specs.Spec.{Tells, TellsText};
ghost use Rattle.pgs_run_check_schema.specs.Judged.{HasLinesOf};
ghost use Rattle.pgs_run_check_schema.specs.Told.{told_lines, told_refusal};
ghost use Rattle.pgs_schema.specs.Told.{IsRefused};
ghost use Rattle.std.specs.Prelude.{IfOk};

use crate::reading::{script_in, tokens_in};
use crate::types::push_types;
use pgs_advice::keys_apart;
use pgs_advice_lines::{Findings, Line, pieces_of, push_advice, push_guard, some_warns};
use pgs_base::{Bytes, Memory};
use pgs_command::Status;
use pgs_conform::Compiled;
use pgs_key_standing::keys_reach;
use pgs_resolve_declared::Declarations;
use pgs_run_lines::put_pieces;
use pgs_run_refusal::refused_lines;
use pgs_schema::{SchemaUnread, read_schema};
use pgs_world::World;
use std::alloc::Global;

// Puts the lines of a refusal, and gives the status.
fn put_refusal<W: World>(lines: &[Bytes], world: &mut W) -> Status
    ensures answer { Tells (told_refusal lines.now) (W.view world.old) (W.view world.new) result }
    ensures last { fails_world result ≡ true → W.failed world.new }
{
    match put_pieces::<Status, W>(world, lines) {
        Ok(()) => Status::SchemaRefused,
        Err(_) => Status::PutFault,
    }
}

// Puts the lines of a text that is no schema.
fn refuse<W: World>(alloc: Global, unread: SchemaUnread, text: &[u8], world: &mut W) -> Status
    requires { IsRefused (schema_of text.now) unread }
    ensures answer { TellsText text.now (W.view world.old) (W.view world.new) result }
    ensures last { fails_world result ≡ true → W.failed world.new }
{
    match refused_lines(alloc, unread, text) {
        Ok(lines) => put_refusal(&lines, world),
        Err(_) => Status::Memory,
    }
}

// Puts lines, and gives the status.
fn put_lines<W: World>(alloc: Global, lines: &[Line], world: &mut W) -> Status
    ensures answer { Tells (told_lines lines.now) (W.view world.old) (W.view world.new) result }
    ensures last { fails_world result ≡ true → W.failed world.new }
{
    let pieces = match pieces_of(alloc, lines) {
        Ok(pieces) => pieces,
        Err(_) => return Status::Memory,
    };
    match put_pieces::<Status, W>(world, &pieces) {
        Ok(()) => {
            if some_warns(lines) {
                Status::Refused
            } else {
                Status::Accepted
            }
        }
        Err(_) => Status::PutFault,
    }
}

// The lines of a text whose schema this is.
#[tactic(auto, using(crate::proofs::Given::is_read))]
fn lines_in(alloc: Global, text: &[u8], compiled: &Compiled) -> Result<Vec<Line>, Memory>
    requires { schema_of text.now ≡ schema compiled.now }
    ensures { IfOk result (λ lines. HasLinesOf text.now compiled.now lines.items) }
{
    let resolved = compiled.resolved();
    let tokens = tokens_in(alloc, text)?;
    let script = script_in(alloc, text, &tokens)?;
    let declarations = Declarations::new(alloc, &script)?;
    let reached = keys_reach(alloc, compiled)?;
    let apart = keys_apart(alloc, compiled)?;
    let findings = Findings { reached, apart };
    let mut lines = Vec::new(alloc);
    push_guard(alloc, &declarations, &resolved.guard, &mut lines)?;
    push_types(alloc, compiled, resolved.guard.types.as_slice(), &mut lines)?;
    push_advice(
        alloc,
        &tokens,
        &script,
        &declarations,
        resolved,
        &findings,
        &mut lines,
    )?;
    Ok(lines)
}

// Puts the lines of the schema of a text.
fn check_schema<W: World>(alloc: Global, text: &[u8], compiled: &Compiled, world: &mut W) -> Status
    requires { schema_of text.now ≡ schema compiled.now }
    ensures answer { TellsText text.now (W.view world.old) (W.view world.new) result }
    ensures last { fails_world result ≡ true → W.failed world.new }
{
    match lines_in(alloc, text, compiled) {
        Ok(lines) => put_lines(alloc, &lines, world),
        Err(_) => Status::Memory,
    }
}

/// Checks a text: puts the lines of its schema, or those of its refusal and its cause, and gives the status.
pub(crate) fn check_text<W: World>(alloc: Global, text: &[u8], world: &mut W) -> Status
    ensures answer { TellsText text.now (W.view world.old) (W.view world.new) result }
    ensures last { fails_world result ≡ true → W.failed world.new }
{
    match read_schema(alloc, text) {
        Ok(compiled) => check_schema(alloc, text, &compiled, world),
        Err(unread) => refuse(alloc, unread, text, world),
    }
}
