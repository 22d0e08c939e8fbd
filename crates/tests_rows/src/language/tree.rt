//! The trees of a script: `node 1 a = &(A,{k:INT}); graph 2 g = loose, a, key 3 (x:a)>[:E]() ms x.k`.

use super::{Put, put, put_number, word_if, word_of};
use pgs_base::{Kind, Name, Value};
use pgs_syntax::{
    Braces, EdgeType, GraphType, Member, NodeType, Qualifiers, RawKey, RawPath, RawPlace, Script,
    Spec, Statement,
};

// Nothing where there is no name.
fn put_names(out: &mut String, before: &'static str, names: &[Name], between: &'static str) -> Put {
    let mut sign = before;
    for name in names {
        put(out, &[sign])?;
        put(out, &[word_of(name)])?;
        sign = between;
    }
    Ok(())
}

fn kind_word(kind: Kind) -> &'static str {
    match kind {
        Kind::Text => ":STRING",
        Kind::Int => ":INT",
        Kind::Bool => ":BOOL",
        Kind::Date => ":DATE",
    }
}

/// `{k:INT,l:STRING?+}`: a `?` is OPTIONAL, the `+` is OPEN.
fn put_braces(out: &mut String, braces: &Braces) -> Put {
    put(out, &["{"])?;
    let mut sign = "";
    for property in braces.properties.as_slice() {
        put(out, &[sign])?;
        put(out, &[word_of(&property.key)])?;
        let optional = word_if(property.optional, "?");
        put(out, &[kind_word(property.kind), optional])?;
        sign = ",";
    }
    put(out, &[word_if(braces.more, "+"), "}"])
}

/// `&(A,|(B,C),?(D))`, and `0` for nothing.
fn put_spec(out: &mut String, spec: &Spec<Name>) -> Put {
    match spec {
        Spec::Empty => put(out, &["0"]),
        Spec::Word(name) => put(out, &[word_of(name)]),
        Spec::OpenLabels => put(out, &["OPEN"]),
        Spec::Braces(braces) => put_braces(out, braces),
        Spec::And(parts) => {
            put(out, &["&("])?;
            let mut is_first = true;
            for part in parts.as_slice() {
                put(out, &[word_if(!is_first, ",")])?;
                put_spec(out, part)?;
                is_first = false;
            }
            put(out, &[")"])
        }
        Spec::Or(parts) => {
            put(out, &["|("])?;
            let mut is_first = true;
            for part in parts.as_slice() {
                put(out, &[word_if(!is_first, ",")])?;
                put_spec(out, part)?;
                is_first = false;
            }
            put(out, &[")"])
        }
        Spec::Opt(part) => {
            put(out, &["?("])?;
            put_spec(out, part.get())?;
            put(out, &[")"])
        }
    }
}

fn put_head(out: &mut String, sort: &str, place: u32, name: &Name, hidden: bool) -> Put {
    put_number(out, sort, i64::from(place))?;
    put(
        out,
        &[" ", word_of(name), word_if(hidden, " abstract"), " = "],
    )
}

fn put_node(out: &mut String, node: &NodeType<Name>) -> Put {
    put_head(out, "node ", node.place, &node.name, node.hidden)?;
    put_spec(out, &node.spec)
}

/// Source, middle and target.
fn put_edge(out: &mut String, edge: &EdgeType<Name>) -> Put {
    put_head(out, "edge ", edge.place, &edge.name, edge.hidden)?;
    put_spec(out, &edge.source)?;
    put(out, &[" "])?;
    put_spec(out, &edge.middle)?;
    put(out, &[" "])?;
    put_spec(out, &edge.target)
}

fn put_value(out: &mut String, value: &Value) -> Put {
    match value {
        Value::Text(text) => put(out, &[text.text()]),
        Value::Int(number) => put_number(out, "", *number),
        Value::Bool(truth) => put(out, &[if *truth { "true" } else { "false" }]),
        Value::Date(day) => {
            put_number(out, "", i64::from(day.year()))?;
            put_number(out, "/", i64::from(day.month()))?;
            put_number(out, "/", i64::from(day.day()))
        }
    }
}

/// `x:A&B{k=1}`, between two signs.
fn put_place(out: &mut String, before: &str, place: &RawPlace, after: &str) -> Put {
    put(out, &[before])?;
    if let Some(var) = &place.var {
        put(out, &[word_of(var)])?;
    }
    put_names(out, ":", place.filter.names.as_slice(), "&")?;
    for (key, value) in place.filter.tests.as_slice() {
        put(out, &["{", word_of(key), "="])?;
        put_value(out, value)?;
        put(out, &["}"])?;
    }
    put(out, &[after])
}

/// `(x)>[e](y)<[f](z)`
fn put_paths(out: &mut String, paths: &[RawPath]) -> Put {
    for path in paths {
        put_place(out, "(", &path.start, ")")?;
        for step in path.steps.as_slice() {
            let sign = if step.forward { ">[" } else { "<[" };
            put_place(out, sign, &step.edge, "]")?;
            put_place(out, "(", &step.node, ")")?;
        }
    }
    Ok(())
}

/// A letter for each thing that is asked: `msec1..2`.
fn put_asked(out: &mut String, asked: Qualifiers) -> Put {
    let mandatory = word_if(asked.mandatory, "m");
    let singleton = word_if(asked.singleton, "s");
    put(
        out,
        &[" ", mandatory, singleton, word_if(asked.exclusive, "e")],
    )?;
    if let Some((least, most)) = asked.count {
        put_number(out, "c", i64::from(least))?;
        put_number(out, "..", i64::from(most))?;
    }
    Ok(())
}

fn put_key(out: &mut String, key: &RawKey) -> Put {
    put_number(out, ", key ", i64::from(key.place))?;
    put(out, &[" "])?;
    put_paths(out, key.scope.as_slice())?;
    put_asked(out, key.qualifiers)?;
    for expr in key.exprs.as_slice() {
        put(out, &[" ", word_of(&expr.var)])?;
        if let Some(property) = &expr.key {
            put(out, &[".", word_of(property)])?;
        }
    }
    if let Some(descriptor) = &key.within {
        put(out, &[" within "])?;
        put_paths(out, descriptor.as_slice())?;
    }
    Ok(())
}

fn put_member(out: &mut String, member: &Member) -> Put {
    put(out, &[", "])?;
    match member {
        Member::Named(name) => put(out, &[word_of(name)]),
        Member::Node(node) => put_node(out, node.get()),
        Member::Edge(edge) => put_edge(out, edge.get()),
    }
}

fn put_graph(out: &mut String, graph: &GraphType) -> Put {
    put_head(out, "graph ", graph.place, &graph.name, false)?;
    put(out, &[if graph.strict { "strict" } else { "loose" }])?;
    put_names(out, " imports ", graph.imports.as_slice(), ",")?;
    for member in graph.members.as_slice() {
        put_member(out, member)?;
    }
    for key in graph.keys.as_slice() {
        put_key(out, key)?;
    }
    Ok(())
}

/// The statements of a script, in order.
pub fn put_script(out: &mut String, script: &Script) -> Put {
    let mut sign = "";
    for statement in script.statements.as_slice() {
        put(out, &[sign])?;
        match statement {
            Statement::Node(node) => put_node(out, node.get())?,
            Statement::Edge(edge) => put_edge(out, edge.get())?,
            Statement::Graph(graph) => put_graph(out, graph.get())?,
        }
        sign = "; ";
    }
    Ok(())
}
