// Both memories through their laws alone.
use memory::Memory;
use memory::array::ArrayMemory;
use memory::place::Place;
use memory::word::WordMemory;
use std::process::Abort;

// Every place of a memory with two slots holds tag 0 and number 0.
fn is_empty<M: Memory>(rt: &impl Abort, memory: &M) {
    assert_eq!(rt; memory.count(), 2);
    assert_eq!(rt; memory.read(Place::Slot(0)), Some((0, 0)));
    assert_eq!(rt; memory.read(Place::Slot(1)), Some((0, 0)));
    assert_eq!(rt; memory.read(Place::Slot(2)), None);
    assert_eq!(rt; memory.read(Place::Head), Some((0, 0)));
    assert_eq!(rt; memory.read(Place::Tail), Some((0, 0)));
}

fn swaps<M: Memory>(rt: &impl Abort, memory: &mut M) {
    assert!(rt; memory.swap(Place::Slot(1), 0, 7));
    assert!(rt; !memory.swap(Place::Slot(1), 0, 8));
    assert!(rt; !memory.swap(Place::Slot(1), 2, 8));
    assert_eq!(rt; memory.read(Place::Slot(1)), Some((1, 7)));
    assert_eq!(rt; memory.read(Place::Slot(0)), Some((0, 0)));
    assert!(rt; memory.swap(Place::Slot(1), 1, 4_294_967_295));
    assert_eq!(rt; memory.read(Place::Slot(1)), Some((2, 4_294_967_295)));
    assert!(rt; !memory.swap(Place::Slot(2), 0, 9));
    assert_eq!(rt; memory.read(Place::Slot(2)), None);
}

fn markers<M: Memory>(rt: &impl Abort, memory: &mut M) {
    assert!(rt; memory.swap(Place::Head, 0, 1));
    assert!(rt; !memory.swap(Place::Head, 0, 0));
    assert_eq!(rt; memory.read(Place::Head), Some((1, 1)));
    assert_eq!(rt; memory.read(Place::Tail), Some((0, 0)));
    assert!(rt; memory.swap(Place::Tail, 0, 5));
    assert!(rt; memory.swap(Place::Tail, 1, 6));
    assert_eq!(rt; memory.read(Place::Tail), Some((2, 6)));
    assert_eq!(rt; memory.read(Place::Head), Some((1, 1)));
}

fn keeps_its_laws<M: Memory>(rt: &impl Abort, memory: &mut M) {
    is_empty(rt, memory);
    swaps(rt, memory);
    markers(rt, memory);
    assert_eq!(rt; memory.count(), 2);
    memory.clear();
    is_empty(rt, memory);
}

#[test]
fn a_memory_of_words(rt: HostRuntime) {
    let mut words = [0u64; 2];
    let mut memory = WordMemory::new(&mut words);
    keeps_its_laws(&rt, &mut memory);
}

#[test]
fn a_memory_of_its_own(rt: HostRuntime) {
    let mut memory = ArrayMemory::new(2);
    keeps_its_laws(&rt, &mut memory);
}

#[test]
fn a_wish_of_64_or_more_gives_64(rt: HostRuntime) {
    assert_eq!(rt; ArrayMemory::new(0).count(), 0);
    assert_eq!(rt; ArrayMemory::new(63).count(), 63);
    assert_eq!(rt; ArrayMemory::new(64).count(), 64);
    let memory = ArrayMemory::new(65);
    assert_eq!(rt; memory.count(), 64);
    assert_eq!(rt; memory.read(Place::Slot(63)), Some((0, 0)));
    assert_eq!(rt; memory.read(Place::Slot(64)), None);
}
