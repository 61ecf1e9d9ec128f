// Whether a RAM has pages, which are compared where they lie.
ghost use Rattle.std.specs.Prelude.{◌≡◌, ◌≤◌, ◌+◌, ◌*◌, length, slice_range};
ghost use Rattle.std.specs.Str.{bytes_eq};

use rv32_mem::Ram;

const PAGE: usize = 4096;

fn as_page(bytes: &[u8]) -> &[u8; 4096]
    requires { length bytes.now ≡ 4096 }
    ensures { result.now ≡ bytes.now }
{
    match bytes.try_into() {
        Ok(page) => page,
        Err(_) => unreachable!(),
    }
}

fn page_at(pages: &[u8], i: usize) -> &[u8; 4096]
    requires { 4096 * i + 4096 ≤ length pages.now }
    ensures { result.now ≡ slice_range pages.now (4096 * i) (4096 * i + 4096) }
{
    let start = PAGE * i;
    as_page(&pages[start..start + PAGE])
}

/// Whether the RAM has these pages and no others.
pub fn has_pages(ram: &Ram, pages: &[u8]) -> bool
    ensures { result ≡ bytes_eq ram.now.bytes pages.now }
{
    if ram.bytes().len() != pages.len() {
        return false;
    }
    for i in 0..ram.pages() {
        if !ram.is_page(i, page_at(pages, i as usize)) {
            return false;
        }
    }
    true
}
