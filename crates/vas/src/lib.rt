// Index arithmetic, RFC 9204 3.2.4 to 3.2.6: relative, base-relative and post-base indexes, absolute indexes from 1, and positions.
#![tactic(auto)]

ghost use Rattle.std.specs.Prelude.{◌≡◌, ◌-◌};
ghost use Rattle.answers.specs.Answer.{answered};
ghost use Rattle.vas.specs.Vas.{relative_at, base_relative_at, post_base_at, absolute_of};

use answers::Refusal;

// How many entries were inserted and how many of them dropped: the live ones are absolute dropped + 1 to inserted.
#[derive(Clone, Copy)]
pub struct VirtualAddressSpace {
    pub inserted: usize,
    pub dropped: usize,
}

impl VirtualAddressSpace {
    // The position of the entry that a relative index names.
    pub fn relative(self, index: usize) -> Result<usize, Refusal>
        ensures { answered result ≡ relative_at self.inserted self.dropped index }
    {
        let inserted = self.inserted;
        self.relative_base(inserted, index)
    }

    // The position of the entry that a relative index names with a base.
    pub fn relative_base(self, base: usize, index: usize) -> Result<usize, Refusal>
        ensures { answered result ≡ base_relative_at self.inserted self.dropped base index }
    {
        let inserted = self.inserted;
        let dropped = self.dropped;
        if inserted <= dropped {
            return Err(Refusal::BadRelativeIndex);
        }
        if base <= index {
            return Err(Refusal::BadRelativeIndex);
        }
        let absolute = base - index;
        if absolute <= dropped {
            return Err(Refusal::BadRelativeIndex);
        }
        if inserted < absolute {
            return Err(Refusal::BadIndex);
        }
        Ok(absolute - dropped - 1)
    }

    // The position of the entry that a post-base index names.
    pub fn post_base(self, base: usize, index: usize) -> Result<usize, Refusal>
        ensures { answered result ≡ post_base_at self.inserted self.dropped base index }
    {
        let inserted = self.inserted;
        let dropped = self.dropped;
        if inserted <= base {
            return Err(Refusal::BadPostbaseIndex);
        }
        // A sum past the inserted count is never made, so it cannot wrap.
        if inserted - base <= index {
            return Err(Refusal::BadPostbaseIndex);
        }
        let before = base + index;
        if before < dropped {
            return Err(Refusal::BadPostbaseIndex);
        }
        Ok(before - dropped)
    }

    // The absolute index of the entry at a position.
    pub fn index(self, position: usize) -> Result<usize, Refusal>
        ensures { answered result ≡ absolute_of self.inserted self.dropped position }
    {
        let inserted = self.inserted;
        let dropped = self.dropped;
        if inserted <= dropped {
            return Err(Refusal::BadIndex);
        }
        if inserted - dropped <= position {
            return Err(Refusal::BadIndex);
        }
        Ok(dropped + position + 1)
    }

    // The live count, which is a section's base.
    pub fn largest_ref(self) -> usize
        ensures { result ≡ self.inserted - self.dropped }
    {
        let inserted = self.inserted;
        let dropped = self.dropped;
        if inserted <= dropped {
            return 0;
        }
        inserted - dropped
    }
}
