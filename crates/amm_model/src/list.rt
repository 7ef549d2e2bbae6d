//! Lists inside the public types, each seen as its items.
ghost use Rattle.std.specs.Prelude.{◌≡◌, IfOk};

use crate::{Leg, Part, ProblemPool};
use amm_names::Memory;
use std::alloc::Global;
use std::marker::Model;

/// The legs of a route.
#[derive(Drop)]
pub struct LegList {
    list: Vec<Leg>,
}

impl Model for LegList {
    ghost use Rattle.std.specs.Prelude.{List};
    ghost use Rattle.amm_model.specs.declared.route.Leg.{Leg};

    ghost Value = { List Leg };

    ghost view = { λ a. a.list.items };
}

impl LegList {
    pub fn from_vec(list: Vec<Leg>) -> LegList
        ensures { result ≡ list.items }
    {
        LegList { list }
    }

    pub fn as_slice(&self) -> &[Leg]
        ensures { result.now ≡ self.now }
    {
        &self.list
    }

    /// An equal list.
    pub fn copy(&self, alloc: Global) -> Result<LegList, Memory>
        ensures { IfOk result (λ list. list ≡ self.now) }
    {
        Ok(LegList {
            list: Vec::from_slice(alloc, &self.list)?,
        })
    }
}

/// The pools of a problem.
#[derive(Drop)]
pub struct ProblemPoolList {
    list: Vec<ProblemPool>,
}

impl Model for ProblemPoolList {
    ghost use Rattle.std.specs.Prelude.{List};
    ghost use Rattle.amm_model.specs.declared.problem.ProblemPool.{ProblemPool};

    ghost Value = { List ProblemPool };

    ghost view = { λ a. a.list.items };
}

impl ProblemPoolList {
    pub fn from_vec(list: Vec<ProblemPool>) -> ProblemPoolList
        ensures { result ≡ list.items }
    {
        ProblemPoolList { list }
    }

    pub fn as_slice(&self) -> &[ProblemPool]
        ensures { result.now ≡ self.now }
    {
        &self.list
    }

    /// An equal list.
    pub fn copy(&self, alloc: Global) -> Result<ProblemPoolList, Memory>
        ensures { IfOk result (λ list. list ≡ self.now) }
    {
        Ok(ProblemPoolList {
            list: Vec::from_slice(alloc, &self.list)?,
        })
    }
}

/// The parts of a problem.
#[derive(Drop)]
pub struct PartList {
    list: Vec<Part>,
}

impl Model for PartList {
    ghost use Rattle.std.specs.Prelude.{List};
    ghost use Rattle.amm_model.specs.declared.problem.Part.{Part};

    ghost Value = { List Part };

    ghost view = { λ a. a.list.items };
}

impl PartList {
    pub fn from_vec(list: Vec<Part>) -> PartList
        ensures { result ≡ list.items }
    {
        PartList { list }
    }

    pub fn as_slice(&self) -> &[Part]
        ensures { result.now ≡ self.now }
    {
        &self.list
    }

    /// An equal list.
    pub fn copy(&self, alloc: Global) -> Result<PartList, Memory>
        ensures { IfOk result (λ list. list ≡ self.now) }
    {
        Ok(PartList {
            list: Vec::from_slice(alloc, &self.list)?,
        })
    }
}
