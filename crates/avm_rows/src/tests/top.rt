//! Words that name no job, words of a job that isn't built, and keys. Each row: the words, the numbers of the call on the
//! files and of the print that fail (0: none), and the line and status.

use avm_outside::{MemFiles, MemSink, NoDisk};
use avm_top::avm;
use std::alloc::{AllocError, Global};

const ID: &str = "000102030405060708090a0b0c0d0e0f";

const SEED: &str = "1111111111111111111111111111111111111111111111111111111111111111";

// Made by an independent program from the id and the seed above.
const PRIVATE: &str =
    "41564d4b010000000500000004000102030405060708090a0b0c0d0e0f1111111111111111111111111111111111111111111111111111111111111111";

const PUBLIC: &str =
    "0000000500000004000102030405060708090a0b0c0d0e0f84fa12b1dfa8b4afdc76ca3a26a35fb1870396261fd727890f2407e4df7f1289";

#[derive(Drop)]
struct Ran {
    status: u8,
    files: MemFiles,
    out: MemSink,
}

fn words(alloc: Global, texts: &[&str]) -> Result<Vec<String>, AllocError> {
    let mut words = Vec::new(alloc);
    for text in texts {
        words.push(String::from_str(alloc, text)?)?;
    }
    Ok(words)
}

fn run(alloc: Global, texts: &[&str], file_fail: u64, print_fail: u64) -> Result<Ran, AllocError> {
    let (Ok(mut files), Ok(mut out)) = (
        MemFiles::new(alloc, vec![in alloc; file_fail]?),
        MemSink::new(alloc, vec![in alloc; print_fail]?),
    ) else {
        return Err(AllocError);
    };
    let words = words(alloc, texts)?;
    let mut disk = NoDisk::new();
    let mut spare = NoDisk::new();
    let status = avm(alloc, &words, &mut files, &mut disk, &mut spare, &mut out);
    Ok(Ran { status, files, out })
}

#[test]
fn words_that_are_no_job_or_not_built(rt: HostRuntime) -> Result<(), AllocError> {
    let rows: [(&[&str], u64, &str, u8); 8] = [
        (&[], 0, "refused words\n", 3),
        (&["audit"], 0, "refused words\n", 3),
        (
            &["audit", "--segment", "a", "--segment", "b"],
            0,
            "refused words\n",
            3,
        ),
        (
            &["audit", "--segment", "a", "--key", "k"],
            0,
            "refused words\n",
            3,
        ),
        (&["replay"], 0, "refused words\n", 3),
        (&["sample", "--seed", "7"], 0, "refused notbuilt\n", 2),
        (&["sample", "--seed", "7"], 1, "", 4),
        (&["list", "--store", "s"], 0, "fault disk\n", 4),
    ];
    for (texts, print_fail, line, status) in rows {
        let ran = run(rt.alloc(), texts, 0, print_fail)?;
        assert_eq!(rt; ran.status, status);
        assert_eq!(rt; ran.out.bytes(), line.as_bytes());
    }
    Ok(())
}

#[test]
fn keys_are_made(rt: HostRuntime) -> Result<(), AllocError> {
    let texts = [
        "keygen", "--height", "5", "--w", "8", "--id", ID, "--seed", SEED, "--key", "k",
        "--public", "p",
    ];
    let private: [u8; 61] = hex_of(PRIVATE);
    let public: [u8; 56] = hex_of(PUBLIC);
    // the private file and the public file, where a call failed
    let rows: [(u64, Option<&[u8]>, Option<&[u8]>, &str, u8); 5] = [
        (0, Some(&private), Some(&public), "key made\n", 0),
        (1, None, None, "fault files\n", 4),
        (2, Some(b""), None, "fault files\n", 4),
        (3, Some(&private), None, "fault files\n", 4),
        (4, Some(&private), Some(b""), "fault files\n", 4),
    ];
    for (file_fail, private, public, line, status) in rows {
        let ran = run(rt.alloc(), &texts, file_fail, 0)?;
        assert_eq!(rt; ran.status, status);
        assert_eq!(rt; ran.out.bytes(), line.as_bytes());
        assert!(rt; ran.files.bytes("k") == private);
        assert!(rt; ran.files.bytes("p") == public);
    }
    Ok(())
}

fn hex_of<const N: usize>(text: &str) -> [u8; N] {
    let mut bytes = [0; N];
    let digits = text.as_bytes();
    for i in 0..N {
        if 2 * i + 1 < digits.len() {
            bytes[i] = digit(digits[2 * i]) << 4 | digit(digits[2 * i + 1]);
        }
    }
    bytes
}

fn digit(c: u8) -> u8 {
    if c >= b'a' {
        c.wrapping_sub(87)
    } else {
        c.wrapping_sub(48)
    }
}
