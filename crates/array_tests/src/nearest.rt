//! Nearest numbers, written into arrays.

use nearest_float::{put_binary32, put_binary64};

#[test]
fn numbers_stand_behind_those_that_are_there(rt: HostRuntime) {
    let mut doubles = [1u64, 2, 3, 4];
    put_binary64(&mut doubles, 1, 9, 16);
    put_binary64(&mut doubles, 2, -5, 24);
    assert_eq!(rt;
        doubles,
        [1, 0x3fe2_0000_0000_0000, 0xbfca_aaaa_aaaa_aaab, 4]
    );
    let mut floats = [1u32, 2, 3, 4];
    put_binary32(&mut floats, 1, 1, 3);
    put_binary32(&mut floats, 3, 1, 64);
    assert_eq!(rt; floats, [1, 0x3eaa_aaab, 3, 0x3c80_0000]);
}
