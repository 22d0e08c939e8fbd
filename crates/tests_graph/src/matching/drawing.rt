//! Schemas, graphs and transactions as if drawn: as texts, which the product's readers read.

use pgs_base::{Limits, Memory};
use pgs_graph::{Graph, Txn};
use pgs_json::read_txn;
use pgs_schema::Schema;
use pgs_txn::delta_of;
use std::alloc::Global;
use tests_fixtures::Draw;

/// Elements that transactions are about have numbers below this one.
pub const ELEMENTS: u64 = 8;

const DIGITS: [&str; 10] = ["0", "1", "2", "3", "4", "5", "6", "7", "8", "9"];

// What may stand at a place of a text: a line for each place, its name, `=` and the texts, with a bar between two of them, each as often
// as its share. What stands between two `%` is a place: one of these, or `number`, the element that the text is about, or `end`, a node.
//
// The keys of a schema have paths, cycles, several paths, repeated variables, edges as x, literals and named types. A pattern is one step,
// and mostly another one, on the same path or on a path from the second node.
const PLACES: &str = r#"
schema=CREATE GRAPH TYPE g %strictness% {%types%%key%%key%%key%%key%};
strictness=STRICT|LOOSE
types=(t: A {k INT}), ABSTRACT (u: B OPEN {OPEN}), (:t)-[e: r {OPTIONAL k INT}]->(:t), ABSTRACT (:u)-[f OPEN {OPEN}]->(OPEN {OPEN})
key=, FOR %key of x%|, FOR %key of edges%|, FOR %key of edges%|, FOR %key of nodes%|, FOR %key of nodes%

key of x=(x%node test%) %qualifiers% %expressions of x%
key of nodes=%scope of nodes% %qualifiers% %expressions of nodes% WITHIN %descriptor of nodes%
key of edges=%scope of edges% %qualifiers% %expressions of edges% WITHIN %descriptor of edges%
qualifiers=IDENTIFIER|EXCLUSIVE|MANDATORY|SINGLETON|EXCLUSIVE MANDATORY|SINGLETON, EXCLUSIVE|COUNT 1..2 OF|MANDATORY, COUNT 0..1 OF EXCLUSIVE
expressions of x=x|x.k|x.k, x
expressions of nodes=x.k|c|v|v.k|c.k, v|v.k, x.k
expressions of edges=x.k|u|v.k|u, v|u.k, x.k|v.k, x
node test=||%test of a node%
test of a node=:A|:B|:t|:u| {k: 4}|:A {k: 5}
edge test=||%test of an edge%
test of an edge=:r|:s|:e|:f| {k: 4}|:r {k: 5}

scope of nodes=(x%node test%)%edge a%(y%node test%)%behind the scope of nodes%
behind the scope of nodes=|%step abxyz%|%step abxyz%|, (y)%step abxyz%|, (y)%step abxyz%
step abxyz=%edge ab%(%node xyz%%node test%)
node xyz=|z|x|y
edge a=-[a%edge test%]->|<-[a%edge test%]-
edge ab=-[%a or b%%edge test%]->|<-[%a or b%%edge test%]-
a or b=|b|a

descriptor of nodes=(x%node test%)%edge c%(v%node test%)%behind the descriptor of nodes%
behind the descriptor of nodes=|%step cdvwx%|%step cdvwx%|, (v)%step cdvwx%|, (v)%step cdvwx%
step cdvwx=%edge cd%(%node vwx%%node test%)
node vwx=|w|x|v
edge c=-[c%edge test%]->|<-[c%edge test%]-
edge cd=-[%c or d%%edge test%]->|<-[%c or d%%edge test%]-
c or d=|d|c

scope of edges=(%node test%)%edge x%(y%node test%)%behind the scope of edges%
behind the scope of edges=|%step bxyz%|%step bxyz%|, (y)%step bxyz%|, (y)%step bxyz%
step bxyz=%edge bx%(%node yz%%node test%)
node yz=||z|y
edge x=-[x%edge test%]->|<-[x%edge test%]-
edge bx=-[%b or x%%edge test%]->|<-[%b or x%%edge test%]-
b or x=|b|x

descriptor of edges=(u%node test%)%edge x%(v%node test%)%behind the descriptor of edges%
behind the descriptor of edges=|%step dxuvw%|%step dxuvw%|, (v)%step dxuvw%|, (v)%step dxuvw%
step dxuvw=%edge dx%(%node uvw%%node test%)
node uvw=|w|u|v
edge dx=-[%d or x%%edge test%]->|<-[%d or x%%edge test%]-
d or x=|d|x

node={"add_node":%number%,"labels":[%labels of a node%],"props":{%property%}}
edge={"add_edge":%number%,"from":%end%,"to":%end%,"labels":[%labels of an edge%],"props":{%property%}}
labels of a node=|"A"|"A"|"B"|"A","B"
labels of an edge=|"r"|"r"|"s"|"r","s"
property=|"k":4|"k":5

change={"ops":[%node change%]}|{"ops":[%node change%]}|{"ops":[%edge change%]}|{"ops":[%edge change%]}|{"ops":[%edge change%]}
node change=%set node%|%label node%|%unlabel node%|%detach node%|%detach node%,%add node%|%add node%|%add node%|%add node%|%add node%|%add node%|%add node%|%add node%|%add node%|%add node%|%add node%|%add node%
set node={"set_node":%number%,"key":"k","value":%value%}
label node={"label_node":%number%,"label":"A"}
unlabel node={"unlabel_node":%number%,"label":"A"}
detach node={"detach_node":%number%}
add node={"add_node":%number%,"labels":[%some labels of a node%]%some property%}
some labels of a node="A"|"A"|"B"|"A","B"
edge change=%set edge%|%remove edge%|%remove edge%,%add edge%|%remove edge%,%add edge%|%add edge%|%add edge%|%add edge%|%add edge%
set edge={"set_edge":%number%,"key":"k","value":%value%}
remove edge={"remove_edge":%number%}
add edge={"add_edge":%number%,"from":%end%,"to":%end%,"labels":[%label of an edge%]%some property%}
label of an edge="r"|"s"
some property=|,"props":{"k":%value%}|,"props":{"k":%value%}|,"props":{"k":%value%}
value=1|2|3|4|5|6
"#;

// What a text is about: the number of its element, and how many nodes its edges may have for their ends.
#[derive(Clone, Copy)]
struct About {
    number: u64,
    nodes: u64,
}

// What may stand at a place.
fn texts_at(place: &str) -> &'static str {
    for line in PLACES.split('\n') {
        if let Some((name, texts)) = line.split_once('=')
            && name == place
        {
            return texts;
        }
    }
    ""
}

// One of the texts between bars. Where there is one alone, nothing is drawn.
fn one_of(draw: &mut Draw, texts: &'static str) -> &'static str {
    let mut count = 0u64;
    for _ in texts.split('|') {
        count = count.saturating_add(1);
    }
    let mut before = if count > 1 { draw.below(count) } else { 0 };
    for text in texts.split('|') {
        if before == 0 {
            return text;
        }
        before = before.saturating_sub(1);
    }
    ""
}

// Writes what stands at a place, with places in it down to a depth.
fn put_place(draw: &mut Draw, place: &str, about: About, depth: u32) {
    if place == "number" {
        draw.put_at(&DIGITS, about.number);
        return;
    }
    if place == "end" {
        let end = draw.below(about.nodes);
        draw.put_at(&DIGITS, end);
        return;
    }
    let mut is_place = false;
    for part in one_of(draw, texts_at(place)).split('%') {
        if !is_place {
            draw.put(part);
        } else if depth > 0 {
            put_place(draw, part, about, depth - 1);
        }
        is_place = !is_place;
    }
}

// Writes a line that adds up to 7 nodes, and up to 9 edges between them, both numbered from 0.
fn put_graph(draw: &mut Draw) {
    let nodes = draw.below(7).saturating_add(1);
    let edges = draw.below(10);
    draw.put("{\"ops\":[");
    put_place(draw, "node", About { number: 0, nodes }, 9);
    for number in 1..nodes {
        draw.put(",");
        put_place(draw, "node", About { number, nodes }, 9);
    }
    for number in 0..edges {
        draw.put(",");
        put_place(draw, "edge", About { number, nodes }, 9);
    }
    draw.put("]}");
}

/// The schema of a text. A refusal is told as want of memory, which no text here meets.
pub fn schema_of(alloc: Global, text: &str) -> Result<Schema, Memory> {
    match Schema::read(alloc, text.as_bytes()) {
        Ok(schema) => Ok(schema),
        Err(_) => Err(Memory),
    }
}

fn txn_of(alloc: Global, line: &str) -> Result<Txn, Memory> {
    match read_txn(alloc, line.as_bytes()) {
        Ok(txn) => Ok(txn),
        Err(_) => Err(Memory),
    }
}

/// The graph that a line makes of nothing. A refusal is told as want of memory, which no line here meets.
pub fn graph_of(alloc: Global, line: &str) -> Result<Graph, Memory> {
    let txn = txn_of(alloc, line)?;
    let mut graph = Graph::new(alloc);
    match delta_of(alloc, &graph, &Limits::standard(), &txn) {
        Ok(delta) => {
            graph.change(delta)?;
            Ok(graph)
        }
        Err(_) => Err(Memory),
    }
}

/// The drawn schema of a number, with four keys.
pub fn drawn_schema(alloc: Global, number: u64) -> Result<Schema, Memory> {
    let mut draw = Draw::new(alloc, number);
    put_place(
        &mut draw,
        "schema",
        About {
            number: 0,
            nodes: 0,
        },
        9,
    );
    schema_of(alloc, draw.text()?)
}

/// The drawn graph of a number.
pub fn drawn_graph(alloc: Global, number: u64) -> Result<Graph, Memory> {
    let mut draw = Draw::new(alloc, number);
    put_graph(&mut draw);
    graph_of(alloc, draw.text()?)
}

/// The drawn transaction of a number: on one element, which is added, changed or removed, or removed and added again.
pub fn drawn_txn(alloc: Global, number: u64) -> Result<Txn, Memory> {
    let mut draw = Draw::new(alloc, number);
    let about = About {
        number: draw.below(ELEMENTS),
        nodes: ELEMENTS,
    };
    put_place(&mut draw, "change", about, 9);
    txn_of(alloc, draw.text()?)
}
