// A feed of one event, an outlet of one packet, and the image that a crash leaves.
use avm_outside::{Disk, Due, Failed, Feed, MemDisk, Outlet};
use std::alloc::AllocError;
use world_parts::{OneFeed, OneOutlet, crash_image};

#[test]
fn a_feed_gives_one_event(rt: HostRuntime) -> Result<(), Failed> {
    let mut buf = [0u8; 24576];
    let mut feed = OneFeed::of(Due::Console(2), &[7, 8], 9);
    assert_eq!(rt; feed.next(5, true, &mut buf)?, Due::Console(2));
    assert!(rt; buf[0] == 7 && buf[1] == 8 && buf[2] == 0);
    assert_eq!(rt; feed.next(5, true, &mut buf)?, Due::End);
    assert_eq!(rt; feed.clock()?, 9);
    assert_eq!(rt; feed.clock()?, 9);
    let mut feed = OneFeed::until(6, 1);
    assert_eq!(rt; feed.next(5, false, &mut buf)?, Due::Later(6));
    assert_eq!(rt; feed.next(6, true, &mut buf)?, Due::End);
    Ok(())
}

#[test]
fn an_outlet_keeps_one_packet(rt: HostRuntime) -> Result<(), AllocError> {
    let Ok(mut outlet) = OneOutlet::new(rt.alloc()) else {
        panic!(rt; "no outlet");
    };
    assert!(rt; outlet.console(&[1]).is_ok() && outlet.authenticator(&[2]).is_ok());
    assert!(rt; outlet.packet(3, &[]).is_err());
    assert!(rt; outlet.packet(3, &[4, 5]).is_ok());
    assert!(rt; outlet.packet(3, &[6]).is_err());
    match outlet.into_packet() {
        Some((peer, bytes)) => {
            assert!(rt; peer == 3 && bytes.bytes() == [4, 5].as_slice());
        }
        None => panic!(rt; "no packet"),
    }
    Ok(())
}

// A disk with two bytes that are synced, and two behind them that aren't.
fn written(disk: &mut MemDisk) -> Result<(), Failed> {
    disk.write_at(0, &[1, 2])?;
    disk.sync()?;
    disk.write_at(1, &[3, 4, 5])
}

#[test]
fn a_crash_leaves_an_image(rt: HostRuntime) -> Result<(), AllocError> {
    let Ok(mut disk) = MemDisk::new(rt.alloc(), Vec::new(rt.alloc())) else {
        panic!(rt; "no disk");
    };
    assert!(rt; written(&mut disk).is_ok());
    let calls = disk.calls();
    assert!(rt; calls == 3);
    let Ok(long) = crash_image(rt.alloc(), &disk, calls, true, 9) else {
        panic!(rt; "no image");
    };
    assert!(rt; long.as_slice() == [1, 9, 9, 9].as_slice());
    let Ok(short) = crash_image(rt.alloc(), &disk, calls, false, 9) else {
        panic!(rt; "no image");
    };
    assert!(rt; short.as_slice() == [1, 9].as_slice());
    let Ok(synced) = crash_image(rt.alloc(), &disk, calls.min(2), true, 9) else {
        panic!(rt; "no image");
    };
    assert!(rt; synced.as_slice() == [1, 2].as_slice());
    Ok(())
}
