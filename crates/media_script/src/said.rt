ghost use Rattle.std.specs.Prelude.{◌≡◌};
ghost use Rattle.media_script.specs.Gives.{Gives};
ghost use Rattle.media_script.specs.Order.{fits, none_said, with_line};

use crate::draft::Draft;
use crate::error::LineError;
use crate::order::{has_room, is_free, is_met};
use crate::setup_line::{Name, SetupLine, Slot};
use media_base::Listed;
use std::alloc::Global;

/// What the setup lines so far say, and what they leave to later ones.
#[derive(Drop)]
pub struct Said {
    /// The slots that are taken.
    pub taken: Listed<Slot>,
    /// What was brought.
    pub known: Listed<Name>,
    /// What they say.
    pub draft: Draft,
}

impl Said {
    /// No line.
    pub fn new(alloc: Global) -> Self
        ensures { result ≡ none_said }
    {
        Said {
            taken: Listed::new(alloc),
            known: Listed::new(alloc),
            draft: Draft::new(alloc),
        }
    }

    // Whether a line may stand behind these.
    fn fits(&self, line: &SetupLine) -> bool
        ensures { result ≡ fits self.now line.now }
    {
        let known = self.known.as_slice();
        is_free(self.taken.as_slice(), line.slot())
            && is_met(known, line.needs())
            && has_room(known, line.gives())
    }

    /// One line more.
    pub fn add(&mut self, alloc: Global, line: SetupLine) -> Result<(), LineError>
        ensures { Gives (λ _. self.new) result (with_line self.old line) }
    {
        if !self.fits(&line) {
            return Err(LineError::Outside);
        }
        if let Some(slot) = line.slot() {
            self.taken.push(slot)?;
        }
        if let Some(name) = line.gives() {
            self.known.push(name)?;
        }
        self.draft.tell(alloc, line)?;
        Ok(())
    }
}
