ghost use Rattle.std.specs.Prelude.{◌≡◌, ◌<◌, ◌^◌, ◌+◌, ◌++◌, [], ◌∷◌, length, OnOk, IfOk, IfErr};
ghost use Rattle.nb_host.specs.declared.faults.Fault.TheVariants.{Memory};
ghost use Rattle.nb_catalog.specs.Chained.{IsSafe};
ghost use Rattle.nb_catalog.specs.Plans.{IsWithin, plan_of};

use crate::Plan;
use crate::lines::parents;
use crate::points::{entries, plan_by};
use nb_host::Fault;
use nb_level::LevelHead;
use std::alloc::{AllocError, Global};
use std::marker::Model;

/// The heads of backup files, each in the place that the file has in a list.
///
/// Contracts see it as the list of the heads.
#[derive(Drop)]
pub struct Catalogue {
    heads: Vec<LevelHead>,
}

impl Model for Catalogue {
    ghost use Rattle.std.specs.Prelude.{List, length, ◌<◌, ◌^◌};
    ghost use Rattle.nb_level.specs.declared.head.LevelHead.{LevelHead};

    ghost Value = { List LevelHead };

    ghost view = { λ c. c.heads.items };

    ghost invariant = { λ c. length c.heads.items < 2 ^ 32 };
}

impl Catalogue {
    pub(crate) fn new(alloc: Global) -> Catalogue
        ensures { result ≡ [] }
    {
        Catalogue {
            heads: Vec::new(alloc),
        }
    }

    /// One file more, the last of the list.
    pub(crate) fn add(&mut self, head: LevelHead) -> Result<(), AllocError>
        requires { length self.old + 1 < 2 ^ 32 }
        ensures { OnOk result (self.new ≡ self.old ++ head ∷ []) }
    {
        self.heads.push(head)?;
        Ok(())
    }

    /// Which files the last restore points need, `keep` of them. Want of memory is the only fault.
    pub fn plan(&self, keep: u32) -> Result<Plan, Fault>
        ensures exact { IfOk result (λ plan. plan ≡ plan_of self.now keep) }
        ensures whole { IfOk result (λ plan. plan.kept + length plan.dropped + length plan.orphans ≡ length self.now) }
        ensures within { IfOk result (λ plan. IsWithin (length self.now) plan) }
        ensures safe { IfOk result (λ plan. IsSafe self.now keep plan) }
        ensures only_memory { IfErr result (λ fault. fault ≡ Memory) }
    {
        let alloc = *self.heads.allocator();
        let parents = parents(alloc, &self.heads)?;
        let entries = entries(alloc, &self.heads)?;
        let plan = plan_by(alloc, &parents, &entries, keep)?;
        Ok(plan)
    }
}
