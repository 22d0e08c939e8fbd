use super::told;
use pgs_base::Memory;
use pgs_json_causes::line_cause;
use std::alloc::Global;
use std::test::Fail;

/// A line, and its cause; `-` where it has none.
type Row = (&'static str, &'static str);

/// What is no JSON text.
const BYTES: &[Row] = &[
    ("", "byte 1: end of line"),
    (" ", "byte 2: end of line"),
    ("x", "byte 1: x"),
    ("{\"ops\":[", "byte 9: end of line"),
    ("{\"ops\":[}", "byte 9: }"),
    ("{\"ops\":[]]", "byte 10: ]"),
    ("{\"ops\":[]} x", "byte 12: x"),
    ("{\"ops\":[{\"add_node\":1},]}", "byte 24: ]"),
    ("{\"ops\":[{\"add_node\":1,}]}", "byte 23: }"),
    ("{'ops':[]}", "byte 2: '"),
    ("{ops:[]}", "byte 2: o"),
    ("{\"ops\" []}", "byte 8: ["),
    ("{\"ops\":[],}", "byte 11: }"),
    ("{\"ops\":[{\"add_node\":01}]}", "byte 22: 1"),
    ("{\"ops\":[{\"add_node\":+1}]}", "byte 21: +"),
    ("{\"ops\":[{\"add_node\":.5}]}", "byte 21: ."),
    ("{\"ops\":[{\"add_node\":1.}]}", "byte 23: }"),
    ("{\"ops\":[{\"add_node\":1e}]}", "byte 23: }"),
    ("{\"ops\":[{\"add_node\":-}]}", "byte 22: }"),
    ("{\"ops\":[{\"add_node\":1e400}]}", "byte 21: 1"),
    ("{\"ops\":[{\"add_node\":-1e400}]}", "byte 21: -"),
    ("[1e400,", "byte 2: 1"),
    ("[1e400x", "byte 2: 1"),
    ("1e400", "byte 1: 1"),
    ("[1e40", "byte 6: end of line"),
    ("[1e308x", "byte 7: x"),
    ("[9e308,", "byte 2: 9"),
    ("[9e308", "byte 2: 9"),
    ("[9e+", "byte 5: end of line"),
    ("[9E-400]", "the line is no object"),
    ("[1e-400]", "the line is no object"),
    ("[true, fals]", "byte 12: ]"),
    ("nul", "byte 4: end of line"),
    ("True", "byte 1: T"),
    ("NaN", "byte 1: N"),
    ("{\"ops\":[\"a\tb\"]}", "byte 11: byte 09"),
    ("{\"ops\":[\"a\\x\"]}", "byte 12: x"),
    ("{\"ops\":[\"\\u12g4\"]}", "byte 14: g"),
    ("[\"\\ud800\"]", "byte 9: \""),
    ("[\"\\ud800\\n\"]", "byte 10: n"),
    ("[\"\\ud800\\u0041\"]", "byte 11: 0"),
    ("[\"\\udc00\"]", "byte 6: c"),
    ("[\"\\ud83d\\ude00\"]", "the line is no object"),
    ("[\"\\u", "byte 5: end of line"),
    ("{\"ops\":\u{201c}\u{201d}}", "byte 8: \u{201c}"),
    ("{\"ops\":\u{a0}[]}", "byte 8: byte c2"),
    ("\u{feff}{\"ops\":[]}", "byte 1: byte ef"),
    ("{\"ops\": []\u{7f}}", "byte 11: byte 7f"),
    ("{\"ops\" :\u{e9}", "byte 9: \u{e9}"),
];

/// What is no object with a list of operations.
const LINES: &[Row] = &[
    ("{\"ops\":[]}", "-"),
    ("[]", "the line is no object"),
    ("null", "the line is no object"),
    ("{}", "the line lacks \"ops\""),
    ("{\"op\":[]}", "\"op\" is no member of a line"),
    (
        "{\"ops\":[{}],\"commit\":1}",
        "\"commit\" is no member of a line",
    ),
    (
        "{\"zz\":1,\"ops\":[],\"at\":2}",
        "\"at\" is no member of a line",
    ),
    ("{\"a\\\"\\n\":1}", "\"a\\\"\\n\" is no member of a line"),
    ("{\"ops\":{}}", "\"ops\" is no list"),
    ("{\"ops\":[1],\"ops\":null}", "\"ops\" is no list"),
    (
        "{\"\u{e9}aaaaaaaaabbbbbbbbbbccccccccccddddddddddeeeeeeeeeeffffffffff1234567\":1}",
        "\"\u{e9}aaaaaaaaabbbbbbbbbbccccccccccddddddddddeeeeeeeeeeffffffffff1234\" is no member of a line",
    ),
];

/// Operations, without what stands around them.
const OPS: &[Row] = &[
    ("1", "op 1: is no object"),
    ("[]", "op 1: is no object"),
    (
        "{\"add_node\":1},{\"add_node\":2},null",
        "op 3: is no object",
    ),
    ("{}", "op 1: is empty"),
    ("{\"add_node\":1},{},1", "op 2: is empty"),
    ("{\"add_nod\":1}", "op 1: \"add_nod\" is no operation"),
    (
        "{\"set_nod\":1,\"key\":\"k\",\"value\":1}",
        "op 1: \"key\" is no operation",
    ),
    (
        "{\"set_node\":1,\"add_node\":2}",
        "op 1: is both add_node and set_node",
    ),
    (
        "{\"remove_node\":1,\"remove_edge\":1,\"x\":1}",
        "op 1: is both remove_edge and remove_node",
    ),
    (
        "{\"add_node\":1,\"label\":\"A\"}",
        "op 1: \"label\" is no member of add_node",
    ),
    (
        "{\"add_node\":1,\"to\":2,\"from\":1}",
        "op 1: \"from\" is no member of add_node",
    ),
    (
        "{\"remove_node\":\"x\",\"labels\":[]}",
        "op 1: \"labels\" is no member of remove_node",
    ),
    (
        "{\"set_node\":1,\"value\":1}",
        "op 1: set_node lacks \"key\"",
    ),
    (
        "{\"set_edge\":1,\"key\":\"k\"}",
        "op 1: set_edge lacks \"value\"",
    ),
    ("{\"add_edge\":1}", "op 1: add_edge lacks \"from\""),
    (
        "{\"add_edge\":1,\"from\":-1}",
        "op 1: add_edge lacks \"to\"",
    ),
    ("{\"unset_node\":1}", "op 1: unset_node lacks \"key\""),
    ("{\"label_edge\":1}", "op 1: label_edge lacks \"label\""),
    ("{\"add_node\":-1}", "op 1: \"add_node\" is no id"),
    ("{\"add_node\":\"1\"}", "op 1: \"add_node\" is no id"),
    ("{\"add_node\":1.0}", "op 1: \"add_node\" is no id"),
    (
        "{\"add_node\":18446744073709551616}",
        "op 1: \"add_node\" is no id",
    ),
    ("{\"add_node\":18446744073709551615}", "-"),
    (
        "{\"add_edge\":1,\"to\":null,\"from\":\"a\"}",
        "op 1: \"from\" is no id",
    ),
    (
        "{\"add_edge\":1,\"to\":null,\"from\":1}",
        "op 1: \"to\" is no id",
    ),
    (
        "{\"set_node\":true,\"key\":1,\"value\":null}",
        "op 1: \"set_node\" is no id",
    ),
    (
        "{\"set_node\":1,\"key\":1,\"value\":null}",
        "op 1: \"key\" is no name",
    ),
    (
        "{\"label_node\":1,\"label\":[\"A\"]}",
        "op 1: \"label\" is no name",
    ),
    (
        "{\"set_node\":1,\"key\":\"9x\",\"value\":null}",
        "op 1: \"9x\" in \"key\" is no name",
    ),
    (
        "{\"unlabel_node\":1,\"label\":\"\"}",
        "op 1: \"\" in \"label\" is no name",
    ),
    (
        "{\"unlabel_edge\":1,\"label\":\"a b\"}",
        "op 1: \"a b\" in \"label\" is no name",
    ),
    (
        "{\"add_node\":1,\"labels\":[\"A\",1,\"9x\"]}",
        "op 1: item 2 of \"labels\" is no name",
    ),
    (
        "{\"add_node\":1,\"labels\":[\"A\",\"9x\",\"8x\"],\"props\":1}",
        "op 1: \"8x\" in \"labels\" is no name",
    ),
    (
        "{\"add_node\":1,\"props\":{\"b c\":1,\"a b\":null}}",
        "op 1: \"a b\" in \"props\" is no name",
    ),
    (
        "{\"add_node\":1,\"labels\":\"A\",\"props\":{\"a b\":1}}",
        "op 1: \"a b\" in \"props\" is no name",
    ),
    (
        "{\"add_node\":1,\"labels\":\"A\",\"props\":1}",
        "op 1: \"labels\" is no list",
    ),
    (
        "{\"add_node\":1,\"labels\":null}",
        "op 1: \"labels\" is no list",
    ),
    (
        "{\"add_node\":1,\"props\":[]}",
        "op 1: \"props\" is no object",
    ),
    (
        "{\"add_node\":1,\"props\":{\"age\":1.5}}",
        "op 1: \"age\" is no whole number",
    ),
    (
        "{\"add_node\":1,\"props\":{\"age\":1.0}}",
        "op 1: \"age\" is no whole number",
    ),
    (
        "{\"add_node\":1,\"props\":{\"age\":-0}}",
        "op 1: \"age\" is no whole number",
    ),
    (
        "{\"add_node\":1,\"props\":{\"age\":9223372036854775808}}",
        "op 1: \"age\" is no number of 64 bits",
    ),
    (
        "{\"add_node\":1,\"props\":{\"age\":-9223372036854775809}}",
        "op 1: \"age\" is no number of 64 bits",
    ),
    (
        "{\"add_node\":1,\"props\":{\"age\":99999999999999999999999}}",
        "op 1: \"age\" is no number of 64 bits",
    ),
    (
        "{\"add_node\":1,\"props\":{\"age\":-9223372036854775808}}",
        "-",
    ),
    (
        "{\"add_node\":1,\"props\":{\"age\":9223372036854775807}}",
        "-",
    ),
    (
        "{\"set_node\":1,\"key\":\"k\",\"value\":1e5}",
        "op 1: \"value\" is no whole number",
    ),
    (
        "{\"set_node\":1,\"key\":\"k\",\"value\":{\"date\":\"2023-02-29\"}}",
        "op 1: \"value\" is no day",
    ),
    (
        "{\"set_node\":1,\"key\":\"k\",\"value\":{\"day\":\"2024-02-29\"}}",
        "op 1: \"value\" is no day",
    ),
    (
        "{\"set_node\":1,\"key\":\"k\",\"value\":{\"date\":\"2024-02-29\"}}",
        "-",
    ),
    (
        "{\"set_edge\":1,\"key\":\"k\",\"value\":null}",
        "op 1: \"value\" is no value",
    ),
    (
        "{\"add_node\":1,\"props\":{\"b\":[],\"c\":1.5,\"a\":true}}",
        "op 1: \"b\" is no value",
    ),
    ("{\"add_node\":1,\"props\":{\"a\":1.5,\"a\":2}}", "-"),
    (
        "{\"add_node\":1,\"labels\":[],\"props\":{\"a\":false,\"b\":\"\\u0000\"}}",
        "-",
    ),
    (
        "{\"detach_node\":1},{\"remove_edge\":2},{\"unset_edge\":1,\"key\":\"k\"}",
        "-",
    ),
    (
        "{\"add_node\":1},{\"add_node\":2,\"props\":{\"k\":null}},{\"add_nod\":3}",
        "op 2: \"k\" is no value",
    ),
];

/// How many arrays stand in one another, and the cause.
const NESTED: &[(u64, &str)] = &[(127, "the line is no object"), (128, "byte 128: [")];

/// Which row is the first whose cause is another, with what is found.
fn first_wrong(alloc: Global, rows: &[Row], before: &str, behind: &str) -> Result<String, Memory> {
    for (line, cause) in rows {
        let text = format!(in alloc; "{before}{line}{behind}")?;
        let found = line_cause(alloc, text.as_bytes())?;
        if told(&found) != *cause {
            return Ok(format!(in alloc; "{text}: {}", told(&found))?);
        }
    }
    Ok(String::new(alloc))
}

/// So many arrays in one another.
fn nested(alloc: Global, count: u64) -> Result<String, Memory> {
    let mut text = String::new(alloc);
    for _ in 0..count {
        text.push('[')?;
    }
    for _ in 0..count {
        text.push(']')?;
    }
    Ok(text)
}

/// Whether each of the nested arrays has its cause.
fn nested_are_right(alloc: Global) -> Result<bool, Memory> {
    for (count, cause) in NESTED {
        let text = nested(alloc, *count)?;
        let found = line_cause(alloc, text.as_bytes())?;
        if told(&found) != *cause {
            return Ok(false);
        }
    }
    Ok(true)
}

#[test]
fn each_line_has_its_cause(rt: HostRuntime) -> Result<(), Fail> {
    let alloc = rt.alloc();
    assert_eq!(rt; first_wrong(alloc, BYTES, "", "")?.as_str(), "");
    assert_eq!(rt; first_wrong(alloc, LINES, "", "")?.as_str(), "");
    assert_eq!(rt; first_wrong(alloc, OPS, "{\"ops\":[", "]}")?.as_str(), "");
    assert!(rt; nested_are_right(alloc)?);
    Ok(())
}
