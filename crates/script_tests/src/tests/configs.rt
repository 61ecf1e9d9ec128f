// Configurations, by an independent program's reading of the rules.
use avm_script::{ReadFault, read_config};
use std::alloc::{AllocError, Global};

// A public key of height 5 and width 8, in digits; one that is allowed with capitals; and a start of keys.
const KEY: &str =
    "0000000500000004000000000000000000000000000000000000000000000000000000000000000000000000000000000000000000000000";

const MIXED: &str =
    "0000000900000001aaAA00000000000000000000000000000000000000000000000000000000000000000000000000000000000000000000";

const ZEROS: &str =
    "000000000000000000000000000000000000000000000000000000000000000000000000000000000000000000000000";

// Texts in parts, with a bar between two, and whether they are configurations.
const TABLE_1: [(&str, bool); 11] = [
    (r#"{"own":0,"pages":256,"snap":1048576,"peers":[]}"#, true),
    (
        " {\n\"peers\" : [ ] ,\t\"snap\" : 1024, \"pages\":1, \"own\" : 15 } ",
        true,
    ),
    (
        r#"{"own":9,"own":0,"pages":4096,"snap":16777216,"peers":[]}"#,
        true,
    ),
    (
        r#"{"own":|D126|,"own":0,"pages":256,"snap":1048576,"peers":[]}"#,
        true,
    ),
    (
        r#"{"own":|D127|,"own":0,"pages":256,"snap":1048576,"peers":[]}"#,
        false,
    ),
    (
        r#"{"own":0,"pages":256,"snap":1048576,"peers":[],"machine":1}"#,
        true,
    ),
    (
        r#"{"machine":2,"own":0,"pages":256,"snap":1048576,"peers":[]}"#,
        true,
    ),
    (
        r#"{"own":0,"pages":256,"snap":1048576,"peers":[],"machine":3}"#,
        false,
    ),
    (
        r#"{"own":0,"pages":256,"snap":1048576,"peers":[],"machine":0}"#,
        false,
    ),
    (
        r#"{"own":0,"pages":256,"snap":1048576,"peers":[],"machine":"1"}"#,
        false,
    ),
    (
        r#"{"own":0,"pages":256,"snap":1048576,"peers":[],"machine":null}"#,
        false,
    ),
];

const TABLE_2: [(&str, bool); 11] = [
    (
        r#"{"own":0,"pages":256,"snap":1048576,"peers":[],"machine":3,"machine":2}"#,
        true,
    ),
    (r#""#, false),
    (r#"{}"#, false),
    (r#"[]"#, false),
    (r#"null"#, false),
    (r#"0"#, false),
    (r#"{"pages":256,"snap":1048576,"peers":[]}"#, false),
    (r#"{"own":0,"snap":1048576,"peers":[]}"#, false),
    (r#"{"own":0,"pages":256,"peers":[]}"#, false),
    (r#"{"own":0,"pages":256,"snap":1048576}"#, false),
    (
        r#"{"own":0,"pages":256,"snap":1048576,"peers":[],"x":1}"#,
        false,
    ),
];

const TABLE_3: [(&str, bool); 11] = [
    (r#"{"Own":0,"pages":256,"snap":1048576,"peers":[]}"#, false),
    (r#"{"own":16,"pages":256,"snap":1048576,"peers":[]}"#, false),
    (r#"{"own":-1,"pages":256,"snap":1048576,"peers":[]}"#, false),
    (r#"{"own":-0,"pages":256,"snap":1048576,"peers":[]}"#, false),
    (
        r#"{"own":0.0,"pages":256,"snap":1048576,"peers":[]}"#,
        false,
    ),
    (
        r#"{"own":"0","pages":256,"snap":1048576,"peers":[]}"#,
        false,
    ),
    (
        r#"{"own":true,"pages":256,"snap":1048576,"peers":[]}"#,
        false,
    ),
    (r#"{"own":00,"pages":256,"snap":1048576,"peers":[]}"#, false),
    (r#"{"own":0,"pages":0,"snap":1048576,"peers":[]}"#, false),
    (r#"{"own":0,"pages":3,"snap":1048576,"peers":[]}"#, false),
    (r#"{"own":0,"pages":8192,"snap":1048576,"peers":[]}"#, false),
];

const TABLE_4: [(&str, bool); 11] = [
    (r#"{"own":0,"pages":1.0,"snap":1048576,"peers":[]}"#, false),
    (r#"{"own":0,"pages":256,"snap":1023,"peers":[]}"#, false),
    (r#"{"own":0,"pages":256,"snap":16777217,"peers":[]}"#, false),
    (r#"{"own":0,"pages":256,"snap":1e4,"peers":[]}"#, false),
    (
        r#"{"own":0,"pages":256,"snap":18446744073709551616,"peers":[]}"#,
        false,
    ),
    (r#"{"own":0,"pages":256,"snap":1048576,"peers":{}}"#, false),
    (
        r#"{"own":0,"pages":256,"snap":1048576,"peers":null}"#,
        false,
    ),
    (r#"{"own":0,"pages":256,"snap":1048576,"peers":[0]}"#, false),
    (
        r#"{"own":0,"pages":256,"snap":1048576,"peers":[{}]}"#,
        false,
    ),
    (
        r#"{"own":0,"pages":256,"snap":1048576,"peers":[]} x"#,
        false,
    ),
    (
        "{\"own\":0,\"pages\":256,\"snap\":1048576,\"peers\":[]}\n",
        true,
    ),
];

const TABLE_5: [(&str, bool); 11] = [
    (r#"{"own":0,"pages":256,"snap":1048576,"peers":[],}"#, false),
    (r#"{"own":0,"pages":256,"snap":1048576,"peers":[]"#, false),
    (
        r#"{"own":0,"pages":1,"snap":1024,"peers":[{"id":3,"key":"|K|"},{"key":"|M|","id":1}]}"#,
        true,
    ),
    (
        r#"{"own":0,"pages":1,"snap":1024,"peers":[{"id":15,"key":"|K|"}]}"#,
        true,
    ),
    (
        r#"{"own":0,"pages":1,"snap":1024,"peers":[{"id":16,"key":"|K|"}]}"#,
        false,
    ),
    (
        r#"{"own":0,"pages":1,"snap":1024,"peers":[{"id":0,"key":"|K|"}]}"#,
        false,
    ),
    (
        r#"{"own":0,"pages":1,"snap":1024,"peers":[{"id":3,"key":"|K|"},{"id":3,"key":"|K|"}]}"#,
        false,
    ),
    (
        r#"{"own":0,"pages":1,"snap":1024,"peers":[{"id":3,"key":"|K-|"}]}"#,
        false,
    ),
    (
        r#"{"own":0,"pages":1,"snap":1024,"peers":[{"id":3,"key":"|K2|"}]}"#,
        false,
    ),
    (
        r#"{"own":0,"pages":1,"snap":1024,"peers":[{"id":3,"key":"|K+|"}]}"#,
        false,
    ),
    (
        r#"{"own":0,"pages":1,"snap":1024,"peers":[{"id":3,"key":"|K+|0"}]}"#,
        false,
    ),
];

const TABLE_6: [(&str, bool); 11] = [
    (
        r#"{"own":0,"pages":1,"snap":1024,"peers":[{"id":3,"key":"|G|"}]}"#,
        false,
    ),
    (
        r#"{"own":0,"pages":1,"snap":1024,"peers":[{"id":3,"key":"|H4|"}]}"#,
        false,
    ),
    (
        r#"{"own":0,"pages":1,"snap":1024,"peers":[{"id":3,"key":"|B6|"}]}"#,
        false,
    ),
    (
        r#"{"own":0,"pages":1,"snap":1024,"peers":[{"id":3,"key":"|W0|"}]}"#,
        false,
    ),
    (
        r#"{"own":0,"pages":1,"snap":1024,"peers":[{"id":3,"key":"|W5|"}]}"#,
        false,
    ),
    (
        r#"{"own":0,"pages":1,"snap":1024,"peers":[{"id":3}]}"#,
        false,
    ),
    (
        r#"{"own":0,"pages":1,"snap":1024,"peers":[{"key":"|K|"}]}"#,
        false,
    ),
    (
        r#"{"own":0,"pages":1,"snap":1024,"peers":[{"id":3,"key":"|K|","x":0}]}"#,
        false,
    ),
    (
        r#"{"own":0,"pages":1,"snap":1024,"peers":[{"id":"3","key":"|K|"}]}"#,
        false,
    ),
    (
        r#"{"own":0,"pages":1,"snap":1024,"peers":[{"id":3,"key":5}]}"#,
        false,
    ),
    (
        r#"{"own":0,"pages":1,"snap":1024,"peers":[{"id":4,"id":3,"key":"|K|"}]}"#,
        true,
    ),
];

// What a part stands for.
fn push(text: &mut String, part: &str) -> Result<(), AllocError> {
    match part {
        "K" => text.push_str(KEY),
        "M" => text.push_str(MIXED),
        "K+" => {
            text.push_str(KEY)?;
            text.push_str("0")
        }
        "K-" => {
            text.push_str("0000000500000004")?;
            text.push_str(&ZEROS[1..])
        }
        "K2" => {
            text.push_str("0000000500000004")?;
            text.push_str(&ZEROS[2..])
        }
        "G" => head(text, "g000000500000004"),
        "H4" => head(text, "0000000400000004"),
        "B6" => head(text, "0000000a00000004"),
        "W0" => head(text, "0000000500000000"),
        "W5" => head(text, "0000000500000005"),
        "D126" => nested(text, 126),
        "D127" => nested(text, 127),
        other => text.push_str(other),
    }
}

// A key with these 16 digits in front.
fn head(text: &mut String, front: &str) -> Result<(), AllocError> {
    text.push_str(front)?;
    text.push_str(ZEROS)
}

// So many arrays, one in another.
fn nested(text: &mut String, depth: u32) -> Result<(), AllocError> {
    for _ in 0..depth {
        text.push_str("[")?;
    }
    for _ in 0..depth {
        text.push_str("]")?;
    }
    Ok(())
}

fn text_of(alloc: Global, row: &str) -> Result<String, AllocError> {
    let mut text = String::new(alloc);
    for part in row.split('|') {
        push(&mut text, part)?;
    }
    Ok(text)
}

// Whether each row's text is read where it says so, and only there.
fn are_judged(alloc: Global, table: &[(&str, bool)]) -> Result<bool, AllocError> {
    for (row, is_config) in table {
        let text = text_of(alloc, row)?;
        match read_config(alloc, text.as_bytes()) {
            Ok(_) if *is_config => {}
            Err(ReadFault::Refused) if !*is_config => {}
            _ => return Ok(false),
        }
    }
    Ok(true)
}

#[test]
fn configurations_are_judged(rt: HostRuntime) -> Result<(), AllocError> {
    assert!(rt; are_judged(rt.alloc(), &TABLE_1)?);
    assert!(rt; are_judged(rt.alloc(), &TABLE_2)?);
    assert!(rt; are_judged(rt.alloc(), &TABLE_3)?);
    assert!(rt; are_judged(rt.alloc(), &TABLE_4)?);
    assert!(rt; are_judged(rt.alloc(), &TABLE_5)?);
    assert!(rt; are_judged(rt.alloc(), &TABLE_6)?);
    assert!(rt; matches!(read_config(rt.alloc(), b"\xff"), Err(ReadFault::Refused)));
    let text = text_of(rt.alloc(), TABLE_5[2].0)?;
    let Ok(config) = read_config(rt.alloc(), text.as_bytes()) else {
        panic!(rt; "not read");
    };
    assert!(rt; config.machine == 1 && config.own == 0 && config.pages == 1 && config.snap == 1024);
    assert!(rt; config.peers.len() == 2);
    assert!(rt; config.peers[0].id == 1 && config.peers[1].id == 3);
    Ok(())
}
