ghost use Rattle.std.specs.Prelude.{◌≡◌};
ghost use Rattle.pgs_match.specs.Plans.{bound_by};
ghost use Rattle.pgs_match.specs.Branches.{goes_from};

/// One step of a plan. It binds one variable, from one that is bound already.
#[derive(Clone, Copy, PartialEq, Eq)]
pub enum Step {
    /// Binds the edge variable to each edge that goes out of the node, or, where it isn't forward, comes in at it.
    Along { edge: u32, node: u32, forward: bool },
    /// Binds the node variable to the source of the edge, or to its target.
    End { edge: u32, node: u32, source: bool },
}

impl Step {
    /// The variable that the step binds.
    pub fn bound(self) -> u32
        ensures { result ≡ bound_by self }
    {
        match self {
            Step::Along { edge, .. } => edge,
            Step::End { node, .. } => node,
        }
    }

    /// Whether the step goes from the variable.
    pub(crate) fn goes_from(self, var: u32) -> bool
        ensures { result ≡ goes_from var self }
    {
        match self {
            Step::Along { node, .. } => node == var,
            Step::End { edge, .. } => edge == var,
        }
    }
}
