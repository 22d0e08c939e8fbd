ghost use Rattle.std.specs.Prelude.{◌≡◌, ◌++◌, map, flat_map, IfOk, OnOk};
ghost use Rattle.pgs_resolve_declared.specs.Declarations.{pieces_of, words_of, word_in};

use pgs_base::{Copyable, Memory, Name};
use pgs_syntax::Spec;
use std::alloc::Global;

// Puts the pieces of a specification that have no parts last, in order.
#[tactic(auto, using(crate::proofs::Parts::of_and, crate::proofs::Parts::of_or, crate::proofs::Parts::of_opt))]
fn push_pieces<'a>(
    alloc: Global,
    spec: &'a Spec<Name>,
    pieces: &mut Vec<&'a Spec<Name>>,
) -> Result<(), Memory>
    ensures { OnOk result (map (λ piece. piece.now) pieces.new.items ≡ map (λ piece. piece.now) pieces.old.items ++ pieces_of spec.now) }
{
    match spec {
        Spec::Word(_) | Spec::Braces(_) => pieces.push(spec)?,
        Spec::And(parts) | Spec::Or(parts) => {
            for part in parts.as_slice() {
                push_pieces(alloc, part, pieces)?;
            }
        }
        Spec::Opt(part) => push_pieces(alloc, part.get(), pieces)?,
        Spec::Empty | Spec::OpenLabels => {}
    }
    Ok(())
}

/// The pieces of a specification that have no parts, in order.
pub fn pieces_of<'a>(alloc: Global, spec: &'a Spec<Name>) -> Result<Vec<&'a Spec<Name>>, Memory>
    ensures { IfOk result (λ pieces. map (λ piece. piece.now) pieces.items ≡ pieces_of spec.now) }
{
    let mut pieces = Vec::new(alloc);
    push_pieces(alloc, spec, &mut pieces)?;
    Ok(pieces)
}

fn push_word(alloc: Global, piece: &Spec<Name>, words: &mut Vec<Name>) -> Result<(), Memory>
    ensures { OnOk result (words.new.items ≡ words.old.items ++ word_in piece.now) }
{
    if let Spec::Word(name) = piece {
        words.push(name.copy(alloc)?)?;
    }
    Ok(())
}

fn push_words(alloc: Global, pieces: &[&Spec<Name>], words: &mut Vec<Name>) -> Result<(), Memory>
    ensures { OnOk result (words.new.items ≡ words.old.items ++ flat_map word_in (map (λ piece. piece.now) pieces.now)) }
{
    for piece in pieces {
        push_word(alloc, piece, words)?;
    }
    Ok(())
}

/// The names in the label positions of a specification, in order.
pub fn words_of(alloc: Global, spec: &Spec<Name>) -> Result<Vec<Name>, Memory>
    ensures { IfOk result (λ words. words.items ≡ words_of spec.now) }
{
    let pieces = pieces_of(alloc, spec)?;
    let mut words = Vec::new(alloc);
    push_words(alloc, &pieces, &mut words)?;
    Ok(words)
}
