//! Accesses at the edges of RAM, the marks, and a RAM of the most pages.

ghost use Rattle.std.specs.Prelude.{IsTrue};
ghost use Rattle.avm_model.specs.Memory.{is_page_count};

use rv32_mem::Ram;
use std::alloc::Global;

/// Whether it is a store, address, bytes, the value to be stored, and what is loaded; None: refused.
const ACCESSES: [(bool, u32, u32, u32, Option<u32>); 34] = [
    (false, 0x8000_0000, 4, 0, Some(0)),
    (true, 0x8000_0000, 4, 0x4433_2211, Some(0)),
    (false, 0x8000_0000, 4, 0, Some(0x4433_2211)),
    (false, 0x8000_0000, 1, 0, Some(0x11)),
    (false, 0x8000_0001, 1, 0, Some(0x22)),
    (false, 0x8000_0003, 1, 0, Some(0x44)),
    (false, 0x8000_0000, 2, 0, Some(0x2211)),
    (false, 0x8000_0002, 2, 0, Some(0x4433)),
    (false, 0x8000_0001, 2, 0, None),
    (false, 0x8000_0003, 2, 0, None),
    (false, 0x8000_0001, 4, 0, None),
    (false, 0x8000_0002, 4, 0, None),
    (true, 0x8000_0001, 2, 0xffff_ffff, None),
    (true, 0x8000_0002, 4, 0xffff_ffff, None),
    (false, 0x8000_0000, 4, 0, Some(0x4433_2211)),
    (true, 0x8000_0002, 1, 0xffff_ff55, Some(0)),
    (false, 0x8000_0000, 4, 0, Some(0x4455_2211)),
    (true, 0x8000_0002, 2, 0xffff_8877, Some(0)),
    (false, 0x8000_0000, 4, 0, Some(0x8877_2211)),
    (false, 0x8000_1ffc, 4, 0, Some(0)),
    (true, 0x8000_1ffc, 4, 0x0102_0304, Some(0)),
    (false, 0x8000_1fff, 1, 0, Some(1)),
    (false, 0x8000_1ffe, 2, 0, Some(0x0102)),
    (false, 0x8000_2000, 1, 0, None),
    (false, 0x8000_2000, 2, 0, None),
    (false, 0x8000_2000, 4, 0, None),
    (true, 0x8000_2000, 1, 1, None),
    (true, 0x8000_2000, 4, 1, None),
    (false, 0x7fff_ffff, 1, 0, None),
    (false, 0x7fff_fffc, 4, 0, None),
    (true, 0x7fff_fffe, 2, 1, None),
    (false, 0, 4, 0, None),
    (false, 0xffff_fffc, 4, 0, None),
    (true, 0xffff_ffff, 1, 1, None),
];

#[test]
fn accesses_and_marks(rt: HostRuntime) {
    let Some(mut ram) = blank(rt.alloc(), 2) else {
        panic!(rt; "memory");
    };
    for &(stores, addr, size, value, want) in &ACCESSES {
        let bytes = match size {
            1 => 1,
            2 => 2,
            _ => 4,
        };
        if stores {
            assert_eq!(rt;
                ram.store(addr, bytes, value),
                want.is_some(),
                "{addr:x} {bytes}"
            );
        } else {
            assert_eq!(rt; ram.load(addr, bytes), want, "{addr:x} {bytes}");
        }
    }
    assert_eq!(rt; ram.fetch(0x8000_0000), Some(0x8877_2211));
    assert_eq!(rt; ram.fetch(0x8000_0002), None);
}

#[test]
fn marks(rt: HostRuntime) {
    let Some(mut ram) = blank(rt.alloc(), 4) else {
        panic!(rt; "memory");
    };
    assert_eq!(rt; (ram.pages(), ram.bytes().len()), (4, 16384));
    assert_eq!(rt; marked(&ram), [false, false, false, false]);
    let _ = ram.store(0x8000_1fff, 1, 7);
    assert_eq!(rt; marked(&ram), [false, true, false, false]);
    let _ = ram.store(0x8000_4000, 1, 7);
    let _ = ram.store(0x8000_0001, 4, 7);
    assert_eq!(rt; marked(&ram), [false, true, false, false]);
    clean(&mut ram);
    assert!(rt; ram.pages() == 4);
    ram.set_page(2, &[9; 4096]);
    assert_eq!(rt; marked(&ram), [false, false, true, false]);
    assert!(rt; ram.pages() == 4);
    assert_eq!(rt;
        (
            ram.page(1)[4095],
            ram.page(2)[0],
            ram.page(2)[4095],
            ram.page(3)[0]
        ),
        (7, 9, 9, 0)
    );
    assert!(rt; ram.pages() == 4 && ram.is_page(2, &[9; 4096]) && !ram.is_page(1, &[0; 4096]));
    assert!(rt; ram.pages() == 4 && ram.is_zero(3) && !ram.is_zero(1));
    clean(&mut ram);
    assert!(rt; ram.bytes().len() == 16384);
    ram.put(4095, &[1, 2]);
    assert_eq!(rt; marked(&ram), [true, true, false, false]);
    clean(&mut ram);
    assert!(rt; ram.bytes().len() == 16384);
    ram.clear(8192, 4096);
    assert!(rt; ram.bytes().len() == 16384);
    ram.put(16384, &[]);
    assert_eq!(rt; marked(&ram), [false, false, true, false]);
    assert!(rt; ram.bytes().len() == 16384);
    assert_eq!(rt;
        (ram.bytes()[4095], ram.bytes()[4096], ram.bytes()[8192]),
        (1, 2, 0)
    );
}

#[test]
fn the_most_pages(rt: HostRuntime) {
    let Some(mut ram) = blank(rt.alloc(), 4096) else {
        panic!(rt; "memory");
    };
    assert!(rt; ram.store(0x80ff_fffc, 4, 0x89ab_cdef));
    assert_eq!(rt; ram.load(0x80ff_fffe, 2), Some(0x89ab));
    assert_eq!(rt; ram.load(0x8100_0000, 1), None);
    assert!(rt; ram.pages() == 4096);
    assert!(rt; ram.dirty(4095) && !ram.dirty(4094));
}

/// RAM of zeros. The tests look at it alone, and not at what its contract says of it.
fn blank(alloc: Global, pages: u32) -> Option<Ram>
    requires { IsTrue (is_page_count pages) }
{
    Ram::new(alloc, pages).ok()
}

fn marked(ram: &Ram) -> [bool; 4] {
    let mut marks = [false; 4];
    for i in 0..ram.pages() {
        if i < 4 {
            marks[i as usize] = ram.dirty(i);
        }
    }
    marks
}

fn clean(ram: &mut Ram) {
    for i in 0..ram.pages() {
        if i < ram.pages() {
            ram.clean(i);
        }
    }
}
