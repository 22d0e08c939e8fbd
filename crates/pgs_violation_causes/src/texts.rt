//! The texts of nearest types.

ghost use Rattle.std.specs.Prelude.{◌≡◌, ◌∷◌, ◌++◌, [], filter_map, option_map, IfOk, OnOk};
ghost use Rattle.pgs_violation_causes.specs.Types.{near_text, nearest_texts, type_name};

use pgs_base::{Bytes, List, Memory, Name};
use pgs_differences::{NearType, near_type_text};
use pgs_syntax::{Resolved, TypeNo};
use std::alloc::Global;

// The name of a type.
fn type_name(resolved: &Resolved, type_no: TypeNo) -> Option<&Name>
    ensures { option_map (λ name. name.now) result ≡ type_name resolved.now type_no }
{
    match type_no {
        TypeNo::Node(number) => match resolved.nodes.at(number as usize) {
            Some(found) => Some(&found.name),
            None => None,
        },
        TypeNo::Edge(number) => match resolved.edges.at(number as usize) {
            Some(found) => Some(&found.name),
            None => None,
        },
    }
}

// Puts the text of a type last, with its differences.
fn push_near_text(
    alloc: Global,
    resolved: &Resolved,
    near: &NearType,
    texts: &mut Vec<Bytes>,
) -> Result<(), Memory>
    ensures { OnOk result (texts.new.items ≡ texts.old.items ++ filter_map (near_text resolved.now) (near.now ∷ [])) }
{
    match type_name(resolved, near.type_no) {
        Some(name) => {
            texts.push(near_type_text(alloc, name, near)?)?;
            Ok(())
        }
        None => Ok(()),
    }
}

// The texts of types, in order.
fn near_texts(alloc: Global, resolved: &Resolved, nears: &[NearType]) -> Result<Vec<Bytes>, Memory>
    ensures { IfOk result (λ texts. texts.items ≡ filter_map (near_text resolved.now) nears.now) }
{
    let mut texts = Vec::new(alloc);
    for near in nears {
        push_near_text(alloc, resolved, near, &mut texts)?;
    }
    Ok(texts)
}

// One text.
fn one_text(alloc: Global, text: &[u8]) -> Result<Vec<Bytes>, Memory>
    ensures { IfOk result (λ texts. texts.items ≡ text.now ∷ []) }
{
    let mut texts = Vec::new(alloc);
    texts.push(Bytes::from_slice(alloc, text)?)?;
    Ok(texts)
}

/// The texts of nearest types, or the one text for where there is none.
pub(crate) fn nearest_texts(
    alloc: Global,
    resolved: &Resolved,
    none: &[u8],
    nears: &[NearType],
) -> Result<List<Bytes>, Memory>
    ensures { IfOk result (λ texts. texts ≡ nearest_texts resolved.now none.now nears.now) }
{
    let texts = match nears {
        [] => one_text(alloc, none)?,
        _ => near_texts(alloc, resolved, nears)?,
    };
    Ok(List::from_vec(texts))
}
