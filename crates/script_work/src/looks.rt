// The answers of a script.
ghost use Rattle.std.specs.Prelude.{◌<◌, length};

use base::Slide;

// The output lists: pivot and shared count after each step.
#[derive(Drop)]
pub struct Looks<'a> {
    pub pivots: &'a mut [u32],
    pub shareds: &'a mut [u32],
}

impl Looks<'_> {
    ghost use Rattle.script_work.specs.Looks.{SameLooks, Put};

    // The answer of step j.
    pub(crate) fn put(&mut self, j: usize, at: Slide)
        requires pivot { j < length self.old.pivots.now }
        requires shared { j < length self.old.shareds.now }
        ensures same { SameLooks self.old self.new }
        ensures put { Put self.old j at self.new }
    {
        self.pivots[j] = at.pivot.0;
        self.shareds[j] = at.shared;
    }
}
