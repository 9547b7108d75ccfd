ghost use Rattle.std.specs.Prelude.{◌≡◌, length, IfOk, IfErr};
ghost use Rattle.nb_host.specs.declared.faults.Fault.TheVariants.{Memory};
ghost use Rattle.nb_catalog.specs.Chained.{names_at};
ghost use Rattle.nb_catalog.specs.Plans.{ArePlaces};

use nb_host::{Fault, Name};
use nb_model::NameList;
use std::alloc::Global;

/// The names in these places of a list. Want of memory is the only fault.
pub fn named(alloc: Global, names: &[Name], places: &[u32]) -> Result<NameList, Fault>
    requires { ArePlaces (length names.now) places.now }
    ensures exact { IfOk result (λ list. list ≡ names_at names.now places.now) }
    ensures only_memory { IfErr result (λ fault. fault ≡ Memory) }
{
    let mut list = NameList::new(alloc);
    for place in places {
        list.push(names[*place as usize].copied())?;
    }
    Ok(list)
}
