//! A distance in four bytes.
ghost use Rattle.std.specs.Prelude.{◌≡◌, ◌<◌, None, Some, is_some, not};

use std::marker::Model;

/// How many edges a walk has, at least one, or that there is none. An `Option<u32>` would take eight bytes.
#[derive(Clone, Copy, PartialEq, Eq, Debug)]
pub struct Distance {
    /// 0 where there is no walk.
    edges: u32,
}

impl Model for Distance {
    ghost use Rattle.std.specs.Prelude.{ℕ, Option};

    ghost Value = { Option ℕ };

    ghost use Rattle.ld_graph.specs.Inner.Distances.{again, kept_of};
    ghost use Rattle.ld_graph.specs.Inner.Repairs.{told};

    ghost view = { λ d. told d.edges };

    ghost inverse = { kept_of };

    ghost inverse_ok = { λ d h. again d };
}

impl Distance {
    /// No walk.
    pub(crate) fn none() -> Distance
        ensures { result ≡ None }
    {
        Distance { edges: 0 }
    }

    /// So many edges.
    pub(crate) fn of(edges: u32) -> Distance
        requires { 0 < edges }
        ensures { result ≡ Some edges }
    {
        Distance { edges }
    }

    /// The number of edges, or `None` where there is no walk.
    pub fn get(&self) -> Option<u32>
        ensures { result ≡ self.now }
    {
        if self.edges == 0 {
            None
        } else {
            Some(self.edges)
        }
    }

    /// Whether there is no walk.
    pub fn is_none(&self) -> bool
        ensures { is_some self.now ≡ not result }
    {
        self.edges == 0
    }
}
