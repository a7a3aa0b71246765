// Plans of a document.
ghost use Rattle.std.specs.Prelude.{◌≡◌};
ghost use Rattle.fc_documents.specs.Kept.{IsPlan};

use crate::transaction::PlanTxn;
use fc_base::{FeId, List};
use std::marker::Model;

/// Elements, and transactions over them.
#[derive(Debug, Drop)]
pub struct Plan {
    /// The elements, in the order of the document.
    pub elements: List<FeId>,
    /// The transactions, in the order of the document.
    pub transactions: List<PlanTxn>,
}

impl Model for Plan {
    ghost use Rattle.fc_documents.specs.Plans.{Planned};

    ghost Value = { Planned };

    ghost use Rattle.std.specs.Coded.{codes};
    ghost use Rattle.fc_documents.specs.contracts.transaction.PlanTxn as contracts;

    ghost coded = { Prim.hlevel (codes, contracts.the_row.coded) };

    ghost use Rattle.fc_documents.specs.Kept.{IsPlan};

    ghost view = { λ s. record { elements = s.elements; transactions = s.transactions } };

    ghost invariant = { λ s. IsPlan (record { elements = s.elements; transactions = s.transactions }) };
}

impl Plan {
    /// The elements, in the order of the document.
    pub fn elements(&self) -> &[FeId]
        ensures same { result.now ≡ self.now.elements }
        ensures plan { IsPlan self.now }
    {
        self.elements.as_slice()
    }

    /// The transactions, in the order of the document.
    pub fn transactions(&self) -> &[PlanTxn]
        ensures same { result.now ≡ self.now.transactions }
        ensures plan { IsPlan self.now }
    {
        self.transactions.as_slice()
    }
}
