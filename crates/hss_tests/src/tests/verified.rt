//! Signatures under two keys: what is valid, and layouts that are not.

use crate::tests::keys::{key, signed};
use crate::tests::rolls::{front, joined};
use lms_hss::hss_verify;
use std::alloc::{AllocError, Global};

/// The HSS key of a top key, with this number of levels.
fn hss_key(alloc: Global, levels: u8, top: &[u8]) -> Result<Vec<u8>, AllocError> {
    joined(alloc, &[&[0, 0, 0, levels], top])
}

/// A signature with this number of signed keys.
fn hss_signature(
    alloc: Global,
    keys: u8,
    upper: &[u8],
    bottom: &[u8],
    lower: &[u8],
) -> Result<Vec<u8>, AllocError> {
    let mut bytes = Vec::from_slice(alloc, &[0, 0, 0, keys])?;
    bytes.extend_from_slice(upper)?;
    bytes.extend_from_slice(bottom)?;
    bytes.extend_from_slice(lower)?;
    Ok(bytes)
}

#[test]
fn a_signature_and_its_layouts(rt: HostRuntime) -> Result<(), AllocError> {
    let alloc = rt.alloc();
    let top = key(alloc, 1)?;
    let bottom = key(alloc, 2)?;
    let text = b"a text";
    let public = top.public();
    let under = bottom.public();
    let upper = signed(alloc, &top, 31, &under)?;
    let lower = signed(alloc, &bottom, 7, text)?;
    let whole = hss_key(alloc, 2, &public)?;
    let good = hss_signature(alloc, 1, &upper, &under, &lower)?;
    assert_eq!(rt; good.len(), 2644);
    assert!(rt; hss_verify(&whole, text, &good));
    assert!(rt; !hss_verify(&whole, b"a tex", &good));
    // other levels
    for levels in [0, 1, 3] {
        assert!(rt; !hss_verify(&hss_key(alloc, levels, &public)?, text, &good));
    }
    for keys in [0, 2] {
        assert!(rt;
            !hss_verify(
                &whole,
                text,
                &hss_signature(alloc, keys, &upper, &under, &lower)?
            )
        );
    }
    // a byte short, and a byte long
    assert!(rt; !hss_verify(front(&whole, 59), text, &good));
    assert!(rt; !hss_verify(&joined(alloc, &[&whole, &[0]])?, text, &good));
    assert!(rt; !hss_verify(&whole, text, front(&good, 2643)));
    assert!(rt; !hss_verify(&whole, text, &joined(alloc, &[&good, &[0]])?));
    assert!(rt; !hss_verify(&whole, text, front(&good, 1352)));
    assert!(rt; !hss_verify(&whole, text, &[]));
    // keys and signatures in other places
    assert!(rt; !hss_verify(&hss_key(alloc, 2, &under)?, text, &good));
    assert!(rt;
        !hss_verify(
            &whole,
            text,
            &hss_signature(alloc, 1, &lower, &under, &upper)?
        )
    );
    assert!(rt;
        !hss_verify(
            &whole,
            text,
            &hss_signature(alloc, 1, &upper, &public, &lower)?
        )
    );
    assert!(rt; !hss_verify(&under, text, &lower));
    Ok(())
}
