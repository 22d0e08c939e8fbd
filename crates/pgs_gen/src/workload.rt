ghost use Rattle.std.specs.Prelude.{◌≡◌, ◌<◌, ◌≤◌, ◌∷◌, [], IfOk, length, true, codes, pos};
ghost use Rattle.pgs_base.specs.Name.{is_name};
ghost use Rattle.pgs_base.specs.declared.value.Value.TheVariants as values;
ghost use Rattle.pgs_gen.specs.Generated.{address, person, known_by, knowing, generated};

use pgs_base::{EdgeId, Labels, List, Memory, Name, NodeId, Props, Text, Value};
use pgs_graph::{Op, Txn};
use std::alloc::Global;

fn name(alloc: Global, bytes: &[u8]) -> Result<Name, Memory>
    requires { is_name bytes.now ≡ true }
    ensures { IfOk result (λ name. name ≡ bytes.now) }
{
    match Name::new(alloc, bytes)? {
        Some(name) => Ok(name),
        None => unreachable!(),
    }
}

fn short_text(alloc: Global, text: &str) -> Result<Text, Memory>
    requires { length text.now ≤ 65535 }
    ensures { IfOk result (λ made. made ≡ text.now) }
{
    match Text::new(alloc, text)? {
        Some(text) => Ok(text),
        None => unreachable!(),
    }
}

fn address(alloc: Global, number: u64) -> Result<Text, Memory>
    requires { number < 1000000 }
    ensures { IfOk result (λ text. text ≡ address number) }
{
    let text = format!(in alloc; "u{number}@x.org")?;
    short_text(alloc, text.as_str())
}

fn label(alloc: Global, bytes: &[u8]) -> Result<Labels, Memory>
    requires { is_name bytes.now ≡ true }
    ensures { IfOk result (λ labels. labels ≡ bytes.now ∷ []) }
{
    let mut labels = Labels::new(alloc);
    labels.insert(name(alloc, bytes)?)?;
    Ok(labels)
}

// The number under `id`, and no other property.
fn with_id(alloc: Global, number: u64) -> Result<Props, Memory>
    requires { number < 1000000 }
    ensures { IfOk result (λ props. props ≡ (codes "id", values.Int (pos number)) ∷ []) }
{
    let mut props = Props::new(alloc);
    props.set(name(alloc, b"id")?, Value::Int(number as i64))?;
    Ok(props)
}

fn person_props(alloc: Global, number: u64) -> Result<Props, Memory>
    requires { number < 1000000 }
    ensures { IfOk result (λ props. props ≡ (codes "id", values.Int (pos number)) ∷ (codes "mail", values.Text (address number)) ∷ []) }
{
    let mut props = with_id(alloc, number)?;
    props.set(name(alloc, b"mail")?, Value::Text(address(alloc, number)?))?;
    Ok(props)
}

fn person(alloc: Global, number: u64) -> Result<Op, Memory>
    requires { number < 1000000 }
    ensures { IfOk result (λ op. op ≡ person number) }
{
    let labels = label(alloc, b"Person")?;
    let props = person_props(alloc, number)?;
    Ok(Op::AddNode {
        id: NodeId(number),
        labels,
        props,
    })
}

// Whom the person of a number knows.
fn known_by(start: u64, number: u64) -> u64
    requires low { 2 ≤ number }
    requires high { number < 1000000 }
    ensures { result ≡ known_by start number }
{
    1 + (start % 4_294_967_296 + 7 * number) % (number - 1)
}

fn knowing(alloc: Global, start: u64, number: u64) -> Result<Op, Memory>
    requires low { 2 ≤ number }
    requires high { number < 1000000 }
    ensures { IfOk result (λ op. op ≡ knowing start number) }
{
    let labels = label(alloc, b"knows")?;
    Ok(Op::AddEdge {
        id: EdgeId(number),
        source: NodeId(number),
        target: NodeId(known_by(start, number)),
        labels,
        props: Props::new(alloc),
    })
}

/// The transaction of a number, from 1 to 500,000: it adds the person of that number and, from the second on, an edge to a person
/// before. docs/GUIDE.md has the rule.
pub fn generate(alloc: Global, start: u64, number: u64) -> Result<Txn, Memory>
    requires low { 1 ≤ number }
    requires high { number ≤ 500000 }
    ensures { IfOk result (λ txn. txn ≡ generated start number) }
{
    let mut ops = Vec::with_capacity(alloc, 2)?;
    ops.push(person(alloc, number)?)?;
    if number >= 2 {
        ops.push(knowing(alloc, start, number)?)?;
    }
    Ok(Txn {
        ops: List::from_vec(ops),
    })
}
