// The rules that a script keeps beside those that a plan keeps too.
ghost use Rattle.std.specs.Prelude.{◌≡◌, nat_eq, map, IfOk};
ghost use Rattle.std.specs.List.{list_all, list_any};
ghost use Rattle.fc_types.specs.Ids.{is_distinct};
ghost use Rattle.fc_library.specs.Gives.{Gives};
ghost use Rattle.fc_library.specs.declared.fault.DocumentRule.TheVariants as rules;
ghost use Rattle.fc_documents.specs.Rules.{is_listed, kept};
ghost use Rattle.fc_documents.specs.Parts as parts;
ghost use Rattle.fc_scripts.specs.Rules as spec;

use crate::steps::are_few;
use fc_base::{CeId, FeId, Memory};
use fc_documents::{PlanTxn, keep};
use fc_library::{DocumentRule, LibFault};
use fc_steps::StepText;

// The most controllers of a script.
const MOST_CONTROLLERS: usize = 16;

/// Refuses more controllers or steps than there may be.
pub(crate) fn keep_counts(controllers: &[CeId], said: &[Option<StepText>]) -> Result<(), LibFault>
    ensures { Gives result (kept rules.TooMany (spec.keeps_counts controllers.now said.now)) }
{
    keep(
        DocumentRule::TooMany,
        controllers.len() <= MOST_CONTROLLERS && are_few(said),
    )
}

/// Refuses two controllers with one number, and an element whose controller is not listed.
pub(crate) fn keep_controllers(
    elements: &[(FeId, CeId)],
    controllers: &[CeId],
) -> Result<(), LibFault>
    ensures { Gives result (kept rules.Controller (spec.keeps_controllers elements.now controllers.now)) }
{
    keep(
        DocumentRule::Controller,
        differ_in_numbers(controllers) && all_are_served(controllers, elements),
    )
}

fn differ_in_numbers(controllers: &[CeId]) -> bool
    ensures { result ≡ is_distinct nat_eq (map spec.number_of controllers.now) }
{
    let mut rest = controllers;
    while let [first, others @ ..] = rest {
        if has_number(others, first.number()) {
            return false;
        }
        rest = others;
    }
    true
}

// Whether one of the controllers has the number.
fn has_number(controllers: &[CeId], number: u8) -> bool
    ensures { result ≡ list_any (nat_eq number) (map spec.number_of controllers.now) }
{
    for controller in controllers {
        if number == controller.number() {
            return true;
        }
    }
    false
}

fn all_are_served(controllers: &[CeId], elements: &[(FeId, CeId)]) -> bool
    ensures { result ≡ list_all (spec.is_served controllers.now) elements.now }
{
    for element in elements {
        if !is_among(controllers, element.1) {
            return false;
        }
    }
    true
}

fn is_among(controllers: &[CeId], controller: CeId) -> bool
    ensures { result ≡ is_listed controllers.now controller }
{
    for other in controllers {
        if controller == *other {
            return true;
        }
    }
    false
}

/// Refuses a transaction that is no plan, as one is whose scope is too large.
pub(crate) fn keep_plans(transactions: &[PlanTxn]) -> Result<(), LibFault>
    ensures { Gives result (kept rules.TooMany (list_all parts.makes_plan transactions.now)) }
{
    let is_kept = all_make_plans(transactions)?;
    keep(DocumentRule::TooMany, is_kept)
}

fn all_make_plans(transactions: &[PlanTxn]) -> Result<bool, Memory>
    ensures { IfOk result (λ make. make ≡ list_all parts.makes_plan transactions.now) }
{
    for transaction in transactions {
        if !transaction.makes_plan()? {
            return Ok(false);
        }
    }
    Ok(true)
}
