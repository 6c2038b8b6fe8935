// Tags: how one is raised, and how two compare.
ghost use Rattle.std.specs.Prelude.{◌≡◌};
ghost use Rattle.steps.specs.Tags.{raised, same_tag};

// The tag that a swap leaves where it found this one.
pub fn raise(tag: u32) -> u32
    ensures { result ≡ raised tag }
{
    tag.wrapping_add(1)
}

// Named, since a kept marker counts as unchanged by its tag alone, and that rule stands here and in `same_tag` only.
pub fn is_same(tag: u32, other: u32) -> bool
    ensures { result ≡ same_tag tag other }
{
    tag == other
}
