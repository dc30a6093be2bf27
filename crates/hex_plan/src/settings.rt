//! By what means a session chooses its moves, beside the tree's search.

ghost use Rattle.std.specs.Prelude.{◌≡◌};
ghost use Rattle.hex_plan.specs.Good.{looks_ahead, no_means};
ghost use Rattle.hex_plan.specs.Plans.{most_after};

/// How many positions the solver may enter after the stone of a look-ahead, if it has no budget of
/// its own.
pub const SOLVE_AFTER: u32 = 1_000;

/// By what means a move is chosen, beside the tree's search.
#[derive(Clone, Copy, Debug, PartialEq, Eq)]
pub struct Means {
    /// Whether virtual connections are looked for. Without them no other means is used.
    pub hsearch: bool,
    /// How many positions the solver's search may enter to find a certificate of who wins; with 0
    /// none is looked for, but after the stone of a look-ahead.
    pub solve: u32,
    /// How many nodes the look-ahead may have to choose the one cell that is searched; with 0 all
    /// allowed cells are searched.
    pub look: u32,
}

impl Means {
    /// The tree's search alone.
    pub fn none() -> Means
        ensures { result ≡ no_means }
    {
        Means {
            hsearch: false,
            solve: 0,
            look: 0,
        }
    }

    /// Whether a search has a look-ahead before it.
    pub fn looks_ahead(self) -> bool
        ensures { result ≡ looks_ahead self }
    {
        self.hsearch && 0 < self.look
    }

    /// How many positions the solver may enter after the stone of a look-ahead, if there is one: as
    /// many as before it, or [`SOLVE_AFTER`] if that is none.
    pub(crate) fn most_after(self) -> u32
        ensures { result ≡ most_after self }
    {
        if self.look == 0 {
            0
        } else if self.solve == 0 {
            SOLVE_AFTER
        } else {
            self.solve
        }
    }
}
