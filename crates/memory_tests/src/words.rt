// The memory of words over words that already hold something.
use memory::Memory;
use memory::packing::{pack, unpack};
use memory::place::Place;
use memory::word::WordMemory;
use std::test::Fail;

#[test]
fn the_tag_is_the_upper_half(rt: HostRuntime) {
    assert_eq!(rt; pack((1, 7)), 0x0000_0001_0000_0007);
    assert_eq!(rt; pack((4_294_967_295, 0)), 0xffff_ffff_0000_0000);
    assert_eq!(rt; unpack(0x0000_0002_ffff_ffff), (2, 4_294_967_295));
}

#[test]
fn a_tag_at_its_ceiling_stays(rt: HostRuntime) {
    let mut words = [0xffff_ffff_0000_0007, 0xffff_fffe_0000_0008];
    let mut memory = WordMemory::new(&mut words);
    assert_eq!(rt; memory.read(Place::Slot(0)), Some((4_294_967_295, 7)));
    assert!(rt; !memory.swap(Place::Slot(0), 4_294_967_295, 9));
    assert!(rt; memory.swap(Place::Slot(1), 4_294_967_294, 9));
    assert!(rt; !memory.swap(Place::Slot(1), 4_294_967_295, 10));
    drop(memory);
    assert_eq!(rt; words, [0xffff_ffff_0000_0007, 0xffff_ffff_0000_0009]);
}

// The words behind the first 4,096 are no slots, and a clear leaves them.
#[test]
fn up_to_4096_words_are_slots(rt: HostRuntime) -> Result<(), Fail> {
    let heap = rt.alloc();
    let mut words = vec![in heap; 5u64; 4097]?;
    assert_eq!(rt; WordMemory::new(&mut words[0..0]).count(), 0);
    assert_eq!(rt; WordMemory::new(&mut words[0..4095]).count(), 4095);
    assert_eq!(rt; WordMemory::new(&mut words[0..4096]).count(), 4096);
    let mut memory = WordMemory::new(&mut words);
    assert_eq!(rt; memory.count(), 4096);
    assert_eq!(rt; memory.read(Place::Slot(4095)), Some((0, 5)));
    assert_eq!(rt; memory.read(Place::Slot(4096)), None);
    assert!(rt; !memory.swap(Place::Slot(4096), 0, 6));
    memory.clear();
    drop(memory);
    assert_eq!(rt; words.get(4095).copied(), Some(0));
    assert_eq!(rt; words.get(4096).copied(), Some(5));
    Ok(())
}
