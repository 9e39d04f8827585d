//! A block is in one of six states. It is closed where it is Used, Recycled or Reused.
ghost use Rattle.std.specs.Prelude.{◌≡◌};

/// What a block is used for.
#[derive(Clone, Copy, Debug, PartialEq, Eq)]
pub enum State {
    /// Nothing is written.
    Clean,
    /// First writes go to it: the pages below `fill` are written.
    Active {
        fill: u32,
    },
    /// Its pages are written, and all slots above `level` of its units are blank.
    Used {
        level: u32,
    },
    /// Later writes go to it: unit `next` is offered next, in slot `level`.
    Recycled {
        level: u32,
        next: u32,
    },
    /// Nothing more can be written before an erase.
    Reused,
    /// The next collection copies to it.
    Spare {
        /// Whether no cell of it is known to be charged.
        blank: bool,
    },
}

impl State {
    ghost use Rattle.block_state.specs.State.{is_closed as closed_of, is_clean as clean_of, is_active as active_of, is_used as used_of, is_recycled as recycled_of};

    /// Whether the block is Used, Recycled or Reused.
    pub(crate) fn is_closed(self) -> bool
        ensures { result ≡ closed_of self }
    {
        matches!(
            self,
            State::Used { .. } | State::Recycled { .. } | State::Reused
        )
    }

    /// Whether the block is Clean.
    pub(crate) fn is_clean(self) -> bool
        ensures { result ≡ clean_of self }
    {
        matches!(self, State::Clean)
    }

    /// Whether the block is Active.
    pub(crate) fn is_active(self) -> bool
        ensures { result ≡ active_of self }
    {
        matches!(self, State::Active { .. })
    }

    /// Whether the block is Used.
    pub(crate) fn is_used(self) -> bool
        ensures { result ≡ used_of self }
    {
        matches!(self, State::Used { .. })
    }

    /// Whether the block is Recycled.
    pub(crate) fn is_recycled(self) -> bool
        ensures { result ≡ recycled_of self }
    {
        matches!(self, State::Recycled { .. })
    }
}
