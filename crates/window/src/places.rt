// What the window queue does to the places that are lent to it.
ghost use Rattle.std.specs.Prelude.{◌≡◌, ◌-◌, ◌<◌, ◌++◌, length, drop};
ghost use Rattle.std.specs.List.{remove};
ghost use Rattle.window.specs.Places.{Found, Put};

use super::refusal::Refusal;

// Writes an element at an index, or refuses where there is no such place.
pub fn put_at<E: Copy>(places: &mut [E], at: usize, x: E) -> Result<(), Refusal>
    ensures { Put places.old at x result places.new }
{
    if at >= places.len() {
        return Err(Refusal::NoPlace);
    }
    places[at] = x;
    Ok(())
}

// The element at place `i` of those in use, counted from 1; nothing outside them.
pub fn element_at<E: Copy>(used: &[E], i: usize) -> Option<E>
    ensures { Found i used.now result }
{
    used.get(i.checked_sub(1)?).copied()
}

// Moves the elements after place `at` (from 0) of those in use one place to the front; the last of these places keeps what it held.
pub fn pull<E: Copy>(used: &mut [E], at: usize)
    requires { at < length used.old }
    ensures { used.new ≡ remove used.old at ++ drop (length used.old - 1) used.old }
{
    used.copy_within(at + 1.., at);
}
