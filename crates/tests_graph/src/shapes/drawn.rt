//! A drawn script: node types of up to three levels of `&`, `|` and `?` over labels and over types that are leaves, and edge types of up to two.

use std::alloc::Global;
use tests_fixtures::Draw;

/// Types of each form of one property, and at last one of nothing and one of any labels.
const NODE_LEAVES: &str = "\
    CREATE NODE TYPE (n0 {k STRING}); CREATE NODE TYPE (n1 {k STRING, OPEN}); CREATE NODE TYPE (n2 {OPTIONAL k STRING}); \
    CREATE NODE TYPE (n3 {OPTIONAL k STRING, OPEN}); CREATE NODE TYPE (n4 {k INT}); CREATE NODE TYPE (n5 {k INT, OPEN}); \
    CREATE NODE TYPE (n6 {OPTIONAL k INT}); CREATE NODE TYPE (n7 {OPTIONAL k INT, OPEN}); CREATE NODE TYPE (n8 {l STRING}); \
    CREATE NODE TYPE (n9 {l STRING, OPEN}); CREATE NODE TYPE (n10 {OPTIONAL l STRING}); \
    CREATE NODE TYPE (n11 {OPTIONAL l STRING, OPEN}); CREATE NODE TYPE (n12 {l INT}); CREATE NODE TYPE (n13 {l INT, OPEN}); \
    CREATE NODE TYPE (n14 {OPTIONAL l INT}); CREATE NODE TYPE (n15 {OPTIONAL l INT, OPEN}); CREATE NODE TYPE (n16); \
    CREATE NODE TYPE (n17 OPEN);";

/// The same as edge types that ask nothing of their ends.
const EDGE_LEAVES: &str = "\
    CREATE EDGE TYPE ()-[e0 {k STRING}]->(); CREATE EDGE TYPE ()-[e1 {k STRING, OPEN}]->(); \
    CREATE EDGE TYPE ()-[e2 {OPTIONAL k STRING}]->(); CREATE EDGE TYPE ()-[e3 {OPTIONAL k STRING, OPEN}]->(); \
    CREATE EDGE TYPE ()-[e4 {k INT}]->(); CREATE EDGE TYPE ()-[e5 {k INT, OPEN}]->(); \
    CREATE EDGE TYPE ()-[e6 {OPTIONAL k INT}]->(); CREATE EDGE TYPE ()-[e7 {OPTIONAL k INT, OPEN}]->(); \
    CREATE EDGE TYPE ()-[e8 {l STRING}]->(); CREATE EDGE TYPE ()-[e9 {l STRING, OPEN}]->(); \
    CREATE EDGE TYPE ()-[e10 {OPTIONAL l STRING}]->(); CREATE EDGE TYPE ()-[e11 {OPTIONAL l STRING, OPEN}]->(); \
    CREATE EDGE TYPE ()-[e12 {l INT}]->(); CREATE EDGE TYPE ()-[e13 {l INT, OPEN}]->(); \
    CREATE EDGE TYPE ()-[e14 {OPTIONAL l INT}]->(); CREATE EDGE TYPE ()-[e15 {OPTIONAL l INT, OPEN}]->(); \
    CREATE EDGE TYPE ()-[e16]->(); CREATE EDGE TYPE ()-[e17 OPEN]->();";

const DIGITS: [&str; 10] = ["0", "1", "2", "3", "4", "5", "6", "7", "8", "9"];

const BRACES: [&str; 16] = [
    "0", "1", "2", "3", "4", "5", "6", "7", "8", "9", "10", "11", "12", "13", "14", "15",
];

// A label, or a leaf by the letter of its sort and its number.
fn put_leaf(draw: &mut Draw, sort: &str) {
    let form = draw.below(8);
    if form < 3 {
        return draw.put_one(&["A", "A", "B"]);
    }
    draw.put(sort);
    if form < 5 {
        draw.put_one(&["16", "17"]);
    } else {
        draw.put_one(&BRACES);
    }
}

fn put_spec(draw: &mut Draw, sort: &str, levels: u32) {
    let form = draw.below(5);
    if levels == 0 || form == 0 {
        return put_leaf(draw, sort);
    }
    draw.put("(");
    put_spec(draw, sort, levels - 1);
    if form == 1 {
        return draw.put("?)");
    }
    draw.put(if form == 2 { " | " } else { " & " });
    put_spec(draw, sort, levels - 1);
    draw.put(")");
}

// A letter, a number of two digits, and a colon.
fn put_name(draw: &mut Draw, letter: &str, number: u64) {
    draw.put(letter);
    draw.put_at(&DIGITS, number / 10);
    draw.put_at(&DIGITS, number % 10);
    draw.put(": ");
}

fn put_node(draw: &mut Draw, number: u64) {
    draw.put("CREATE NODE TYPE (");
    put_name(draw, "t", number);
    put_spec(draw, "n", 3);
    draw.put(");\n");
}

fn put_edge(draw: &mut Draw, number: u64) {
    draw.put("CREATE EDGE TYPE (: ");
    put_spec(draw, "n", 2);
    draw.put(")-[");
    put_name(draw, "u", number);
    put_spec(draw, "e", 2);
    draw.put("]->(: ");
    put_spec(draw, "n", 2);
    draw.put(");\n");
}

/// A script of the leaves, 60 node types and 20 edge types.
pub fn script(alloc: Global) -> Draw {
    let mut draw = Draw::new(alloc, 7);
    draw.put(NODE_LEAVES);
    draw.put(EDGE_LEAVES);
    for number in 0..60 {
        put_node(&mut draw, number);
    }
    for number in 0..20 {
        put_edge(&mut draw, number);
    }
    draw.put("CREATE GRAPH TYPE g LOOSE {};");
    draw
}
