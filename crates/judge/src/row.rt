// The working row of an item.

// `began` is the position of the event that began the item's put, if one did.
// `passes` is the number of items that passed it and whose puts began after its acceptance, `refused` that its put was answered full, `handed` that it was handed out.
#[derive(Clone, Copy, Debug, PartialEq, Eq)]
pub struct Row {
    pub began: Option<usize>,
    pub passes: u32,
    pub accepted: bool,
    pub refused: bool,
    pub handed: bool,
}

impl Row {
    // An item of which no event has told.
    pub const BLANK: Row = Row {
        began: None,
        passes: 0,
        accepted: false,
        refused: false,
        handed: false,
    };
}
