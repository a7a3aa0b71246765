// Scripts of a document.
ghost use Rattle.std.specs.Prelude.{◌≡◌};
ghost use Rattle.fc_scripts.specs.Kept.{IsScript};

use fc_base::{CeId, FeId, List};
use fc_documents::PlanTxn;
use fc_steps::Step;
use fc_types::{Instances, Library};
use std::marker::Model;

/// A network, and what happens in it step by step.
#[derive(Debug, Drop)]
pub struct Script {
    /// The classes of each element, without those that it has of itself.
    pub library: Library,
    /// The instances of each element, without those of the classes that it has of itself.
    pub instances: Instances,
    /// The elements, in the order of the document, each with the controller that it has of itself.
    pub elements: List<(FeId, CeId)>,
    /// The controllers, in the order of the document.
    pub controllers: List<CeId>,
    /// The transactions, in the order of the document.
    pub transactions: List<PlanTxn>,
    /// The steps in their order, each with the place of its text, counted from 1.
    pub steps: List<(usize, Step)>,
}

impl Model for Script {
    ghost use Rattle.fc_scripts.specs.Scripts.{Scripted};

    ghost Value = { Scripted };

    ghost use Rattle.std.specs.Coded.{codes};
    ghost use Rattle.fc_types.specs.contracts.library.Library as library_contracts;
    ghost use Rattle.fc_documents.specs.contracts.transaction.PlanTxn as transaction_contracts;
    ghost use Rattle.fc_steps.specs.contracts.step.Step as step_contracts;

    ghost coded = { Prim.hlevel (codes, library_contracts.the_row.coded, transaction_contracts.the_row.coded, step_contracts.the_row.coded) };

    ghost use Rattle.fc_scripts.specs.Kept.{IsScript};

    ghost view = { λ s. record { library = s.library; instances = s.instances; elements = s.elements; controllers = s.controllers; transactions = s.transactions; steps = s.steps } };

    ghost invariant = { λ s. IsScript (record { library = s.library; instances = s.instances; elements = s.elements; controllers = s.controllers; transactions = s.transactions; steps = s.steps }) };
}

impl Script {
    /// The classes of each element, without those that it has of itself.
    pub fn library(&self) -> &Library
        ensures same { result.now ≡ self.now.library }
        ensures script { IsScript self.now }
    {
        &self.library
    }

    /// The instances of each element, without those of the classes that it has of itself.
    pub fn instances(&self) -> &Instances
        ensures same { result.now ≡ self.now.instances }
        ensures script { IsScript self.now }
    {
        &self.instances
    }

    /// The elements, in the order of the document, each with the controller that it has of itself.
    pub fn elements(&self) -> &[(FeId, CeId)]
        ensures same { result.now ≡ self.now.elements }
        ensures script { IsScript self.now }
    {
        self.elements.as_slice()
    }

    /// The controllers, in the order of the document.
    pub fn controllers(&self) -> &[CeId]
        ensures same { result.now ≡ self.now.controllers }
        ensures script { IsScript self.now }
    {
        self.controllers.as_slice()
    }

    /// The transactions, in the order of the document.
    pub fn transactions(&self) -> &[PlanTxn]
        ensures same { result.now ≡ self.now.transactions }
        ensures script { IsScript self.now }
    {
        self.transactions.as_slice()
    }

    /// The steps in their order, each with the place of its text, counted from 1.
    pub fn steps(&self) -> &[(usize, Step)]
        ensures same { result.now ≡ self.now.steps }
        ensures script { IsScript self.now }
    {
        self.steps.as_slice()
    }
}
