// What a read or a swap names: a slot by its index from 0, or a marker.
#[derive(Clone, Copy, Debug, PartialEq, Eq)]
pub enum Place {
    Slot(usize),
    Head,
    Tail,
}
