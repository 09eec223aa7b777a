use super::*;

fn tags<P: Placement>(place: &P, word: u32, raw: u64, count: u64) -> (u32, Option<u32>, u64, bool) {
    let slot = place.slot_of(word);
    let dressed = place.dress(raw);
    let shows = place.shows(dressed, slot.map(|_| count));
    (place.slots(9), slot, dressed, shows)
}

#[test]
fn the_tag_is_bit_32_of_the_word(rt: HostRuntime) {
    assert_eq!(rt; Packed.slots(4194320), 0);
    assert_eq!(rt; Packed.slot_of(4194319), None);
    assert_eq!(rt; Packed.dress(0x2_0000_0004), 0x3_0000_0004);
    assert_eq!(rt; Packed.dress(0x3_0000_0004), 0x3_0000_0004);
    assert_eq!(rt; Packed.dress(0xffff_fffe_ffff_ffff), u64::MAX);
    assert!(rt; Packed.shows(0x3_0000_0004, None));
    assert!(rt; !Packed.shows(0x2_0000_0004, None));
    assert_eq!(rt;
        tags(&Packed, 3, 0x2_0000_0004, 2),
        (0, None, 0x3_0000_0004, true)
    );
}
