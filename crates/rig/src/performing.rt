// The one place where a rig touches a memory.
ghost use Rattle.std.specs.Prelude.{◌≡◌};
ghost use Rattle.rig.specs.Accesses.{returned, left_by};

use memory::Memory;
use steps::access::{Access, Got};

// Makes the access, and says what it returned.
pub fn perform<M: Memory>(memory: &mut M, access: Access) -> Got
    ensures got { result ≡ returned (M.meaning memory.old) access }
    ensures after { M.meaning memory.new ≡ left_by (M.meaning memory.old) access }
{
    match access {
        Access::Read(at) => {
            let (tag, number) = memory.read(at).unwrap_or((0, 0));
            Got::Pair(tag, number)
        }
        Access::Swap(at, expected, new) => Got::Said(memory.swap(at, expected, new)),
    }
}
