// The plan that a document means.
ghost use Rattle.std.specs.Prelude.{◌==◌, length};
ghost use Rattle.fc_documents.specs.Rules.{kept};
ghost use Rattle.fc_library.specs.Gives.{Gives};
ghost use Rattle.fc_library.specs.declared.fault.DocumentRule.TheVariants as rules;
ghost use Rattle.fc_controlling.specs.Meanings as spec;

use fc_documents::{Plan, plan_from_slice};
use fc_library::{DocumentRule, LibFault};
use std::alloc::Global;

// The plan that a document means, which has as many elements as there are addresses.
pub(crate) fn plan_for(alloc: Global, addresses: usize, document: &[u8]) -> Result<Plan, LibFault>
    ensures { Gives result (spec.plan_for addresses document.now) }
{
    let plan = plan_from_slice(alloc, document)?;
    keep_addresses(plan.elements().len() == addresses)?;
    Ok(plan)
}

fn keep_addresses(is_kept: bool) -> Result<(), LibFault>
    ensures { Gives result (kept rules.Addresses is_kept) }
{
    if is_kept {
        Ok(())
    } else {
        Err(LibFault::Rule(DocumentRule::Addresses))
    }
}
