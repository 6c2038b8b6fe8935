// The answer of a call: of a put accepted or full, of a take an item or empty. The steps name an item by its number; whoever collects a call gets the element.
ghost use Rattle.std.specs.Prelude.{◌≡◌};
ghost use Rattle.steps.specs.Answers.{answer_number};

#[derive(Clone, Copy, Debug, PartialEq, Eq)]
pub enum Answer<T = u32> {
    Accepted,
    Full,
    Item(T),
    Empty,
}

// The number of each answer, with the item that it carries, else 0.
impl From<Answer> for (u32, u32) {
    ghost from_gives = { λ answer n. n ≡ answer_number answer };

    fn from(answer: Answer) -> (u32, u32) {
        match answer {
            Answer::Accepted => (3, 0),
            Answer::Full => (4, 0),
            Answer::Item(item) => (5, item),
            Answer::Empty => (6, 0),
        }
    }
}
