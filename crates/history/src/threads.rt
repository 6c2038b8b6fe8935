// Where each thread's last event stands.
ghost use Rattle.std.specs.Prelude.{◌≡◌, length, replicate, Some, None, slice_index_or, slice_set};

// For each of 64 threads the position of its last event so far.
#[derive(Clone, Copy)]
pub struct LastEvents {
    positions: [Option<usize>; 64],
    ghost whole: { length positions ≡ 64 },
}

impl LastEvents {
    pub fn new() -> LastEvents
        ensures { result.positions ≡ replicate 64 None }
    {
        LastEvents {
            positions: [None; 64],
        }
    }

    // The position of a thread's last event; nothing of a thread that the table does not have.
    pub fn of(&self, thread: u32) -> Option<usize>
        ensures { result ≡ slice_index_or self.now.positions thread None }
    {
        *self.positions.get(thread as usize)?
    }

    // Notes the position of a thread's last event; a thread that the table does not have leaves it as it was.
    pub fn note(&mut self, thread: u32, at: usize)
        ensures { self.new.positions ≡ slice_set self.old.positions thread (Some at) }
    {
        if thread < 64 {
            self.positions[thread as usize] = Some(at);
        }
    }
}
