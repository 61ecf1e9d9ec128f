// Word lists, by an independent program's reading of the rules.
use avm_script::{Job, Signed, job, spare_word, store_word};
use std::alloc::{AllocError, Global};

// Words with a bar between two, and whether they are a job. `I` and `S` stand for an id and a seed in whole.
const TABLE_1: [(&str, bool); 15] = [
    ("replay", false),
    ("Audit|--segment|g", false),
    ("audit", false),
    ("--segment|g", false),
    ("--segment|g|audit", false),
    ("audit |--segment|g", false),
    (
        "keygen|--height|5|--w|8|--id|I|--seed|S|--key|k|--public|p",
        true,
    ),
    (
        "keygen|--public|p|--key|k|--seed|S|--id|I|--w|8|--height|5",
        true,
    ),
    ("keygen|--w|8|--id|I|--seed|S|--key|k|--public|p", false),
    (
        "keygen|--height|5|--id|I|--seed|S|--key|k|--public|p",
        false,
    ),
    ("keygen|--height|5|--w|8|--seed|S|--key|k|--public|p", false),
    ("keygen|--height|5|--w|8|--id|I|--key|k|--public|p", false),
    ("keygen|--height|5|--w|8|--id|I|--seed|S|--public|p", false),
    ("keygen|--height|5|--w|8|--id|I|--seed|S|--key|k", false),
    (
        "keygen|--height|5|--w|8|--id|I|--seed|S|--key|k|--public|p|--height|5",
        false,
    ),
];

const TABLE_2: [(&str, bool); 15] = [
    (
        "keygen|--height|5|--w|8|--id|I|--seed|S|--key|k|--public|p|--unknown|x",
        false,
    ),
    (
        "keygen|--height|5|--w|8|--id|I|--seed|S|--key|k|--public|",
        false,
    ),
    (
        "keygen|--height|5|--w|8|--id|I|--seed|S|--key|k|--public",
        false,
    ),
    (
        "keygen|--height|5|--w|8|--id|I|--seed|S|--key|k|--public|p|--store",
        false,
    ),
    ("format|--store|s|--key|k|--config|c|--image|i", true),
    ("format|--image|i|--config|c|--key|k|--store|s", true),
    ("format|--key|k|--config|c|--image|i", false),
    ("format|--store|s|--config|c|--image|i", false),
    ("format|--store|s|--key|k|--image|i", false),
    ("format|--store|s|--key|k|--config|c", false),
    (
        "format|--store|s|--key|k|--config|c|--image|i|--store|s",
        false,
    ),
    (
        "format|--store|s|--key|k|--config|c|--image|i|--unknown|x",
        false,
    ),
    ("format|--store|s|--key|k|--config|c|--image|", false),
    ("format|--store|s|--key|k|--config|c|--image", false),
    (
        "format|--store|s|--key|k|--config|c|--image|i|--store",
        false,
    ),
];

const TABLE_3: [(&str, bool); 15] = [
    (
        "record|--store|s|--key|k|--script|t|--packets|p|--console|c|--auths|a",
        true,
    ),
    (
        "record|--auths|a|--console|c|--packets|p|--script|t|--key|k|--store|s",
        true,
    ),
    (
        "record|--key|k|--script|t|--packets|p|--console|c|--auths|a",
        false,
    ),
    (
        "record|--store|s|--script|t|--packets|p|--console|c|--auths|a",
        false,
    ),
    (
        "record|--store|s|--key|k|--packets|p|--console|c|--auths|a",
        false,
    ),
    (
        "record|--store|s|--key|k|--script|t|--console|c|--auths|a",
        false,
    ),
    (
        "record|--store|s|--key|k|--script|t|--packets|p|--auths|a",
        false,
    ),
    (
        "record|--store|s|--key|k|--script|t|--packets|p|--console|c",
        false,
    ),
    (
        "record|--store|s|--key|k|--script|t|--packets|p|--console|c|--auths|a|--store|s",
        false,
    ),
    (
        "record|--store|s|--key|k|--script|t|--packets|p|--console|c|--auths|a|--unknown|x",
        false,
    ),
    (
        "record|--store|s|--key|k|--script|t|--packets|p|--console|c|--auths|",
        false,
    ),
    (
        "record|--store|s|--key|k|--script|t|--packets|p|--console|c|--auths",
        false,
    ),
    (
        "record|--store|s|--key|k|--script|t|--packets|p|--console|c|--auths|a|--store",
        false,
    ),
    ("export|--store|s|--from|1|--to|2|--segment|g", true),
    ("export|--segment|g|--to|2|--from|1|--store|s", true),
];

const TABLE_4: [(&str, bool); 15] = [
    ("export|--from|1|--to|2|--segment|g", false),
    ("export|--store|s|--to|2|--segment|g", false),
    ("export|--store|s|--from|1|--segment|g", false),
    ("export|--store|s|--from|1|--to|2", false),
    (
        "export|--store|s|--from|1|--to|2|--segment|g|--store|s",
        false,
    ),
    (
        "export|--store|s|--from|1|--to|2|--segment|g|--unknown|x",
        false,
    ),
    ("export|--store|s|--from|1|--to|2|--segment|", false),
    ("export|--store|s|--from|1|--to|2|--segment", false),
    (
        "export|--store|s|--from|1|--to|2|--segment|g|--store",
        false,
    ),
    (
        "audit|--segment|g|--image|i|--key|k|--auths|a|--evidence|e",
        true,
    ),
    (
        "audit|--evidence|e|--auths|a|--key|k|--image|i|--segment|g",
        true,
    ),
    ("audit|--image|i|--key|k|--auths|a|--evidence|e", false),
    ("audit|--segment|g|--key|k|--auths|a|--evidence|e", true),
    ("audit|--segment|g|--image|i|--auths|a|--evidence|e", false),
    ("audit|--segment|g|--image|i|--key|k|--evidence|e", false),
];

const TABLE_5: [(&str, bool); 15] = [
    ("audit|--segment|g|--image|i|--key|k|--auths|a", false),
    (
        "audit|--segment|g|--image|i|--key|k|--auths|a|--evidence|e|--segment|g",
        false,
    ),
    (
        "audit|--segment|g|--image|i|--key|k|--auths|a|--evidence|e|--unknown|x",
        false,
    ),
    (
        "audit|--segment|g|--image|i|--key|k|--auths|a|--evidence|",
        false,
    ),
    (
        "audit|--segment|g|--image|i|--key|k|--auths|a|--evidence",
        false,
    ),
    (
        "audit|--segment|g|--image|i|--key|k|--auths|a|--evidence|e|--store",
        false,
    ),
    ("check|--key|k|--evidence|e", true),
    ("check|--evidence|e|--key|k", true),
    ("check|--evidence|e", false),
    ("check|--key|k", false),
    ("check|--key|k|--evidence|e|--key|k", false),
    ("check|--key|k|--evidence|e|--unknown|x", false),
    ("check|--key|k|--evidence|", false),
    ("check|--key|k|--evidence", false),
    ("check|--key|k|--evidence|e|--store", false),
];

const TABLE_6: [(&str, bool); 15] = [
    ("rebut|--store|s|--evidence|e", true),
    ("rebut|--evidence|e|--store|s", true),
    ("rebut|--evidence|e", false),
    ("rebut|--store|s", false),
    ("rebut|--store|s|--evidence|e|--store|s", false),
    ("rebut|--store|s|--evidence|e|--unknown|x", false),
    ("rebut|--store|s|--evidence|", false),
    ("rebut|--store|s|--evidence", false),
    ("rebut|--store|s|--evidence|e|--store", false),
    ("list|--store|s", true),
    ("list", false),
    ("list|--store|s|--store|s", false),
    ("list|--store|s|--unknown|x", false),
    ("list|--store|", false),
    ("list|--store", false),
];

const TABLE_7: [(&str, bool); 15] = [
    ("list|--store|s|--store", false),
    ("sample|--seed|7", true),
    ("sample", false),
    ("sample|--seed|7|--seed|7", false),
    ("sample|--seed|7|--unknown|x", false),
    ("sample|--seed|", false),
    ("sample|--seed", false),
    ("sample|--seed|7|--store", false),
    (
        "keygen|--height|5|--w|8|--id|I|--seed|S|--key|same|--public|same",
        false,
    ),
    ("format|--store|same|--key|same|--config|c|--image|i", false),
    ("format|--store|same|--key|k|--config|c|--image|same", false),
    ("format|--store|s|--key|same|--config|same|--image|i", false),
    ("format|--store|s|--key|k|--config|same|--image|same", false),
    (
        "record|--store|same|--key|same|--script|t|--packets|p|--console|c|--auths|a",
        false,
    ),
    (
        "record|--store|same|--key|k|--script|t|--packets|same|--console|c|--auths|a",
        false,
    ),
];

const TABLE_8: [(&str, bool); 15] = [
    (
        "record|--store|same|--key|k|--script|t|--packets|p|--console|c|--auths|same",
        false,
    ),
    (
        "record|--store|s|--key|same|--script|same|--packets|p|--console|c|--auths|a",
        false,
    ),
    (
        "record|--store|s|--key|same|--script|t|--packets|p|--console|same|--auths|a",
        false,
    ),
    (
        "record|--store|s|--key|k|--script|same|--packets|same|--console|c|--auths|a",
        false,
    ),
    (
        "record|--store|s|--key|k|--script|same|--packets|p|--console|c|--auths|same",
        false,
    ),
    (
        "record|--store|s|--key|k|--script|t|--packets|same|--console|same|--auths|a",
        false,
    ),
    (
        "record|--store|s|--key|k|--script|t|--packets|p|--console|same|--auths|same",
        false,
    ),
    ("export|--store|same|--from|1|--to|2|--segment|same", false),
    (
        "audit|--segment|same|--image|same|--key|k|--auths|a|--evidence|e",
        false,
    ),
    (
        "audit|--segment|same|--image|i|--key|k|--auths|same|--evidence|e",
        false,
    ),
    (
        "audit|--segment|g|--image|same|--key|same|--auths|a|--evidence|e",
        false,
    ),
    (
        "audit|--segment|g|--image|same|--key|k|--auths|a|--evidence|same",
        false,
    ),
    (
        "audit|--segment|g|--image|i|--key|same|--auths|same|--evidence|e",
        false,
    ),
    (
        "audit|--segment|g|--image|i|--key|k|--auths|same|--evidence|same",
        false,
    ),
    ("check|--key|same|--evidence|same", false),
];

const TABLE_9: [(&str, bool); 15] = [
    ("rebut|--store|same|--evidence|same", false),
    ("export|--store|s|--from|0|--to|2|--segment|g", true),
    ("export|--store|s|--from|00|--to|2|--segment|g", false),
    ("export|--store|s|--from|01|--to|2|--segment|g", false),
    (
        "export|--store|s|--from|18446744073709551615|--to|2|--segment|g",
        true,
    ),
    (
        "export|--store|s|--from|18446744073709551616|--to|2|--segment|g",
        false,
    ),
    ("export|--store|s|--from|-1|--to|2|--segment|g", false),
    ("export|--store|s|--from|+1|--to|2|--segment|g", false),
    ("export|--store|s|--from| 1|--to|2|--segment|g", false),
    ("export|--store|s|--from|1 |--to|2|--segment|g", false),
    ("export|--store|s|--from|1a|--to|2|--segment|g", false),
    (
        "export|--store|s|--from|99999999999999999999999|--to|2|--segment|g",
        false,
    ),
    ("export|--store|s|--from||--to|2|--segment|g", false),
    ("sample|--seed|0", true),
    ("sample|--seed|00", false),
];

const TABLE_10: [(&str, bool); 15] = [
    ("sample|--seed|4294967295", true),
    ("sample|--seed|4294967296", false),
    ("sample|--seed|+7", false),
    (
        "keygen|--height|20|--w|8|--id|I|--seed|S|--key|k|--public|p",
        false,
    ),
    (
        "keygen|--height|5.|--w|8|--id|I|--seed|S|--key|k|--public|p",
        false,
    ),
    (
        "keygen|--height|05|--w|8|--id|I|--seed|S|--key|k|--public|p",
        false,
    ),
    (
        "keygen|--height|1|--w|8|--id|I|--seed|S|--key|k|--public|p",
        false,
    ),
    (
        "keygen|--height|15|--w|8|--id|I|--seed|S|--key|k|--public|p",
        true,
    ),
    (
        "keygen|--height|10|--w|8|--id|I|--seed|S|--key|k|--public|p",
        true,
    ),
    (
        "keygen|--height|25|--w|8|--id|I|--seed|S|--key|k|--public|p",
        false,
    ),
    (
        "keygen|--height|5|--w|1|--id|I|--seed|S|--key|k|--public|p",
        true,
    ),
    (
        "keygen|--height|5|--w|2|--id|I|--seed|S|--key|k|--public|p",
        true,
    ),
    (
        "keygen|--height|5|--w|4|--id|I|--seed|S|--key|k|--public|p",
        true,
    ),
    (
        "keygen|--height|5|--w|3|--id|I|--seed|S|--key|k|--public|p",
        false,
    ),
    (
        "keygen|--height|5|--w|16|--id|I|--seed|S|--key|k|--public|p",
        false,
    ),
];

const TABLE_11: [(&str, bool); 15] = [
    (
        "keygen|--height|5|--w|08|--id|I|--seed|S|--key|k|--public|p",
        false,
    ),
    (
        "keygen|--height|5|--w|8|--id|000102030405060708090a0b0c0d0e|--seed|S|--key|k|--public|p",
        false,
    ),
    (
        "keygen|--height|5|--w|8|--id|000102030405060708090a0b0c0d0e0f00|--seed|S|--key|k|--public|p",
        false,
    ),
    (
        "keygen|--height|5|--w|8|--id|000102030405060708090a0b0c0d0e0|--seed|S|--key|k|--public|p",
        false,
    ),
    (
        "keygen|--height|5|--w|8|--id|000102030405060708090A0B0C0D0E0F|--seed|S|--key|k|--public|p",
        true,
    ),
    (
        "keygen|--height|5|--w|8|--id|g00102030405060708090a0b0c0d0e0f|--seed|S|--key|k|--public|p",
        false,
    ),
    (
        "keygen|--height|5|--w|8|--id|0x0102030405060708090a0b0c0d0e0f|--seed|S|--key|k|--public|p",
        false,
    ),
    (
        "keygen|--height|5|--w|8|--id|I|--seed|11111111111111111111111111111111111111111111111111111111111111|--key|k|--public|p",
        false,
    ),
    (
        "keygen|--height|5|--w|8|--id|I|--seed|111111111111111111111111111111111111111111111111111111111111111111|--key|k|--public|p",
        false,
    ),
    (
        "keygen|--height|5|--w|8|--id|I|--seed|111111111111111111111111111111111111111111111111111111111111111|--key|k|--public|p",
        false,
    ),
    (
        "keygen|--height|5|--w|8|--id|I|--seed|FFFFFFFFFFFFFFFFFFFFFFFFFFFFFFFFFFFFFFFFFFFFFFFFFFFFFFFFFFFFFFFF|--key|k|--public|p",
        true,
    ),
    (
        "keygen|--height|5|--w|8|--id|I|--seed|+111111111111111111111111111111111111111111111111111111111111111|--key|k|--public|p",
        false,
    ),
    ("audit|--segment|g", true),
    ("audit|--segment|g|--image|i", true),
    ("audit|--segment|g|--key|k", false),
];

const TABLE_12: [(&str, bool); 6] = [
    ("audit|--segment|g|--auths|a|--evidence|e", false),
    ("audit|--segment|g|--key|k|--auths|a", false),
    ("audit|--segment|a|--segment|b", false),
    ("list|--store|s|--key|k", false),
    ("sample|--store|s", false),
    ("retain|--store|s|--into|t|--at|1", true),
];

const TABLE_13: [(&str, bool); 16] = [
    ("retain|--store|s|--into|s|--at|1", false),
    ("retain|--store|s|--into|t|--at|01", false),
    ("retain|--store|s|--into|t", false),
    ("roll|--key|k|--store|s", true),
    ("roll|--key|s|--store|s", false),
    ("enroll|--store|s|--key|k|--public|p|--endorse|e", true),
    ("enroll|--store|s|--key|k|--public|e|--endorse|e", false),
    ("enroll|--store|s|--key|k|--public|p", false),
    ("widen|--endorse|e|--auths|a|--out|o", true),
    ("widen|--endorse|e|--auths|o|--out|o", false),
    ("widen|--endorse|e|--auths|a|--out|o|--key|k", false),
    ("narrow|--key|k|--auths|a|--public|p|--out|o", true),
    ("narrow|--key|k|--auths|a|--public|k|--out|o", false),
    ("narrow|--auths|a|--public|p|--out|o", false),
    ("view|--segment|g|--count|7", true),
    ("view|--segment|g|--count|7|--changes|80000000", false),
];

const TABLE_14: [(&str, bool); 16] = [
    ("view|--segment|g", false),
    ("view|--count|7", false),
    ("view|--segment|g|--count|07", false),
    ("view|--segment|g|--count|18446744073709551616", false),
    ("view|--segment|g|--count|7|--from|80000000", false),
    ("view|--segment|g|--count|7|--words|1", false),
    ("view|--segment|g|--count|7|--from|80000000|--words|1", true),
    (
        "view|--words|4096|--from|8000aBcD|--segment|g|--count|7",
        true,
    ),
    (
        "view|--segment|g|--count|7|--from|80000000|--words|0",
        false,
    ),
    (
        "view|--segment|g|--count|7|--from|80000000|--words|4097",
        false,
    ),
    ("view|--segment|g|--count|7|--from|8000000|--words|1", false),
    (
        "view|--segment|g|--count|7|--from|080000000|--words|1",
        false,
    ),
    (
        "view|--segment|g|--count|7|--from|0x000000|--words|1",
        false,
    ),
    ("view|--segment|g|--changes|ffffffff", true),
    ("view|--segment|g|--changes|fffffff", false),
    (
        "view|--segment|g|--changes|80000014|--from|80000000|--words|1",
        false,
    ),
];

const ID: &str = "000102030405060708090a0b0c0d0e0f";

const SEED: &str = "1111111111111111111111111111111111111111111111111111111111111111";

fn words(alloc: Global, text: &str) -> Result<Vec<String>, AllocError> {
    let mut words = Vec::new(alloc);
    for part in text.split('|') {
        let word = match part {
            "I" => ID,
            "S" => SEED,
            other => other,
        };
        words.push(String::from_str(alloc, word)?)?;
    }
    Ok(words)
}

// Whether each row's words are a job where it says so, and only there.
fn are_judged(alloc: Global, table: &[(&str, bool)]) -> Result<bool, AllocError> {
    for (text, is_job) in table {
        let words = words(alloc, text)?;
        if job(words.as_slice()).is_ok() != *is_job {
            return Ok(false);
        }
    }
    Ok(true)
}

fn table_1(alloc: Global) -> Result<bool, AllocError> {
    are_judged(alloc, &TABLE_1)
}

fn table_2(alloc: Global) -> Result<bool, AllocError> {
    are_judged(alloc, &TABLE_2)
}

fn table_3(alloc: Global) -> Result<bool, AllocError> {
    are_judged(alloc, &TABLE_3)
}

fn table_4(alloc: Global) -> Result<bool, AllocError> {
    are_judged(alloc, &TABLE_4)
}

fn table_5(alloc: Global) -> Result<bool, AllocError> {
    are_judged(alloc, &TABLE_5)
}

fn table_6(alloc: Global) -> Result<bool, AllocError> {
    are_judged(alloc, &TABLE_6)
}

fn table_7(alloc: Global) -> Result<bool, AllocError> {
    are_judged(alloc, &TABLE_7)
}

fn table_8(alloc: Global) -> Result<bool, AllocError> {
    are_judged(alloc, &TABLE_8)
}

fn table_9(alloc: Global) -> Result<bool, AllocError> {
    are_judged(alloc, &TABLE_9)
}

fn table_10(alloc: Global) -> Result<bool, AllocError> {
    are_judged(alloc, &TABLE_10)
}

fn table_11(alloc: Global) -> Result<bool, AllocError> {
    are_judged(alloc, &TABLE_11)
}

fn table_12(alloc: Global) -> Result<bool, AllocError> {
    are_judged(alloc, &TABLE_12)
}

fn table_13(alloc: Global) -> Result<bool, AllocError> {
    are_judged(alloc, &TABLE_13)
}

fn table_14(alloc: Global) -> Result<bool, AllocError> {
    are_judged(alloc, &TABLE_14)
}

#[test]
fn words_are_jobs(rt: HostRuntime) -> Result<(), AllocError> {
    assert!(rt; table_1(rt.alloc())?);
    assert!(rt; table_2(rt.alloc())?);
    assert!(rt; table_3(rt.alloc())?);
    assert!(rt; table_4(rt.alloc())?);
    assert!(rt; table_5(rt.alloc())?);
    assert!(rt; table_6(rt.alloc())?);
    assert!(rt; table_7(rt.alloc())?);
    assert!(rt; table_8(rt.alloc())?);
    assert!(rt; table_9(rt.alloc())?);
    assert!(rt; table_10(rt.alloc())?);
    assert!(rt; table_11(rt.alloc())?);
    assert!(rt; table_12(rt.alloc())?);
    assert!(rt; table_13(rt.alloc())?);
    assert!(rt; table_14(rt.alloc())?);
    let none: Vec<String> = Vec::new(rt.alloc());
    assert!(rt; job(none.as_slice()).is_err());
    Ok(())
}

#[test]
fn values_are_read(rt: HostRuntime) -> Result<(), AllocError> {
    let list = words(
        rt.alloc(),
        "export|--to|18446744073709551615|--from|0|--segment|g|--store|s",
    )?;
    assert!(rt;
        matches!(
            job(list.as_slice()),
            Ok(Job::Export {
                store: "s",
                from: 0,
                to: 18446744073709551615,
                segment: "g"
            })
        )
    );
    assert!(rt; store_word(list.as_slice()) == Some("s"));
    assert!(rt; spare_word(list.as_slice()).is_none());
    let list = words(
        rt.alloc(),
        "keygen|--height|10|--w|2|--id|000102030405060708090A0b0c0d0e0f|--seed|1111111111111111111111111111111111111111111111111111111111111111|--key|k|--public|p",
    )?;
    assert!(rt;
        job(list.as_slice())
            == Ok(Job::Keygen {
                height: 10,
                w: 2,
                id: [0, 1, 2, 3, 4, 5, 6, 7, 8, 9, 10, 11, 12, 13, 14, 15],
                seed: [17; 32],
                key: "k",
                public: "p",
            })
    );
    assert!(rt; store_word(list.as_slice()).is_none());
    let list = words(
        rt.alloc(),
        "audit|--evidence|e|--segment|g|--key|k|--auths|a",
    )?;
    assert!(rt;
        matches!(
            job(list.as_slice()),
            Ok(Job::Audit {
                segment: "g",
                image: None,
                signed: Some(Signed {
                    key: "k",
                    auths: "a",
                    evidence: "e"
                })
            })
        )
    );
    let list = words(rt.alloc(), "retain|--at|4|--into|b|--store|a")?;
    assert!(rt; spare_word(list.as_slice()) == Some("b"));
    let list = words(
        rt.alloc(),
        "view|--segment|g|--count|2|--from|80000000|--words|2",
    )?;
    assert!(rt;
        job(list.as_slice())
            == Ok(Job::ViewAt {
                segment: "g",
                count: 2,
                from: 0x8000_0000,
                words: 2,
            })
    );
    let list = words(rt.alloc(), "view|--segment|g|--changes|8000001A")?;
    assert!(rt;
        job(list.as_slice())
            == Ok(Job::ViewChanges {
                segment: "g",
                at: 0x8000_001a
            })
    );
    let list = words(rt.alloc(), "sample|--seed|4294967295")?;
    assert!(rt; matches!(job(list.as_slice()), Ok(Job::Sample { seed: 4294967295 })));
    Ok(())
}
