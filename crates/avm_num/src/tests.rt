//! What no clause says: that memory suffices, and the order of a number's bytes as a person writes it.

use crate::{Room, View};

#[test]
#[tactic(auto, unfolding(crate::specs::Room::left))]
fn what_is_put_is_taken(rt: HostRuntime) {
    let Ok(mut room) = Room::new(rt.alloc(), 16) else {
        assert!(rt; false);
        return;
    };
    room.put_u8(7);
    room.put_u32(0x0102_0304);
    room.put_u64(0x1122_3344_5566_7788);
    room.put(b"abc");
    let wanted = [
        7, 1, 2, 3, 4, 0x11, 0x22, 0x33, 0x44, 0x55, 0x66, 0x77, 0x88, 97, 98, 99,
    ];
    assert_eq!(rt; room.bytes(), wanted.as_slice());
    let mut view = View::new(room.bytes());
    assert_eq!(rt; view.take_u8(), Some(7));
    assert_eq!(rt; view.take_u32(), Some(0x0102_0304));
    assert_eq!(rt; view.take_u64(), Some(0x1122_3344_5566_7788));
    assert_eq!(rt; view.take(4), None);
    assert_eq!(rt; view.rest(), b"abc".as_slice());
}
