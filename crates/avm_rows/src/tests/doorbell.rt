//! Segments of machines of version 2, alone and beside an image. The guest's handler prints what is typed in.

ghost use Rattle.std.specs.Prelude.{IfSome, None, ◌≡◌};

use super::building::{Entry, alone, booted, origin_from, put_words};
use super::entries::{CONIN, HALT, OUT};
use super::images::ends_beside;
use super::running::audits_as;
use guest_dev::Devices;
use guest_machine::Machine;
use page_tree::Tree;
use rv32_mem::Ram;
use std::alloc::Global;
use test_guests::{RINGS, SPINS};

/// A halt by a store to BELL_VEC, which a machine of version 1 doesn't have.
const UNMAPPED: &[u8] = &[0, 0, 0, 8, 0x10, 0, 0, 0x30];

/// The machine of version 2 that boots with this RAM.
#[tactic(auto, using(guest_machine::proofs::Heads::new_head_bell))]
fn with_bell(alloc: Global, ram: Ram) -> Option<Machine>
    ensures { IfSome result (λ m. m.state.devices.clock ≡ None) }
{
    let Ok(devices) = Devices::with_bell(alloc, 0, Vec::new(alloc)) else {
        return None;
    };
    let _pages = ram.pages();
    Some(Machine::new(devices, ram, 1024, 0x8000_0000))
}

/// The segment of a guest of version 2: BOOT, and then these entries.
fn segment(alloc: Global, words: &[u32], entries: &[Entry<'_>]) -> Option<Vec<u8>> {
    let mut ram = Ram::new(alloc, 1).ok()?;
    put_words(&mut ram, words);
    let tree = Tree::build(alloc, &mut ram).ok()?;
    let pages = Vec::from_slice(alloc, ram.bytes()).ok()?;
    let machine = with_bell(alloc, ram)?;
    booted(alloc, &origin_from(alloc, &machine, pages, &tree)?, entries)
}

#[test]
fn a_segment_of_version_2(rt: HostRuntime) {
    // the entries behind BOOT, the image's words, the line alone and beside the image, and the statuses
    let rows: [(&[Entry<'_>], &[u32], &str, u8, &str, u8); 5] = [
        (
            &[(CONIN, 10, b"\n"), (OUT, 12, b"\n")],
            RINGS,
            "accepted 1 to 3 covered 0\n",
            0,
            "accepted 1 to 3 covered 0\n",
            0,
        ),
        (
            &[
                (CONIN, 10, b"\n"),
                (CONIN, 11, b"\n"),
                (OUT, 12, b"\n"),
                (OUT, 15, b"\n"),
            ],
            RINGS,
            "accepted 1 to 5 covered 0\n",
            0,
            "accepted 1 to 5 covered 0\n",
            0,
        ),
        (
            &[(CONIN, 10, b"\n"), (OUT, 12, b"\n")],
            SPINS,
            "accepted 1 to 3 covered 0\n",
            0,
            "refused image\n",
            2,
        ),
        (
            &[(CONIN, 10, b"\n"), (OUT, 14, b"\n")],
            RINGS,
            "refused uncovered 3\n",
            2,
            "refused uncovered 3\n",
            2,
        ),
        (
            &[(HALT, 4, UNMAPPED)],
            RINGS,
            "refused uncovered 2\n",
            2,
            "refused uncovered 2\n",
            2,
        ),
    ];
    let alloc = rt.alloc();
    for (entries, words, line, status, beside, then) in rows {
        let segment = segment(alloc, RINGS, entries).expect(&rt, "memory");
        assert!(rt; audits_as(alloc, &segment, line, status), "{line}");
        assert!(rt;
            ends_beside(alloc, &segment, words, beside, then) == Some(true),
            "{beside}"
        );
    }
}

/// The same guest in a machine of version 1, and a head whose version is changed: nine bytes too many.
#[test]
fn a_segment_of_another_version(rt: HostRuntime) {
    let alloc = rt.alloc();
    let first = alone(alloc, RINGS, &[(HALT, 4, UNMAPPED)]).expect(&rt, "memory");
    assert!(rt; audits_as(alloc, &first, "accepted 1 to 2 covered 0\n", 0));
    let mut changed = segment(alloc, RINGS, &[]).expect(&rt, "memory");
    assert!(rt; audits_as(alloc, &changed, "accepted 1 to 1 covered 0\n", 0));
    if let Some(version) = changed.get_mut(49) {
        *version = 1;
    }
    assert!(rt; audits_as(alloc, &changed, "refused malformed\n", 2));
}
