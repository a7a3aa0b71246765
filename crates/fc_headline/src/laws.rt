//! The laws of the machine of an element and of the world. Each function has no body: what it ensures holds of the definitions in specs/.

ghost use Rattle.std.specs.Prelude.{◌≡◌, ◌≢◌, ℕ, true, false, List, take, Option, Some, None};
ghost use Rattle.std.specs.List.{AllByRecursion};
ghost use Rattle.fc_headline.specs.CleanRound.{CleanRound};
ghost use Rattle.fc_headline.specs.Events.{EventsPass, EventsQuiet};
ghost use Rattle.fc_headline.specs.Folds.{ElementFolds};
ghost use Rattle.fc_headline.specs.Headline.{Headline};
ghost use Rattle.fc_headline.specs.Instances.{ByInstances, KeepsRefused};
ghost use Rattle.fc_headline.specs.OneElement.{ElementKeeps, RestsPass};
ghost use Rattle.fc_headline.specs.Restarts.{Lived, OneRun};
ghost use Rattle.fc_machine.specs.ElementState.{Element, new_element};
ghost use Rattle.fc_machine.specs.Ground.{Commute, Ground, Lawful, Place};
ghost use Rattle.fc_machine.specs.Instances.{Held, by_instance};
ghost use Rattle.fc_machine.specs.Messages.{Configuring, Message};
ghost use Rattle.fc_machine.specs.Views.{Goes, circumstance_of, rest_of, rest_shown};
ghost use Rattle.fc_machine.specs.WorldSteps.{Step, first_world, run};
ghost use Rattle.fc_protocol.specs.Scopes.{same_place};
ghost use Rattle.fc_protocol.specs.WorldSteps.{Network};

use crate::Grounds;

/// Of one element over its whole life, whatever comes to it and however often it stops and resumes: the settled configuration is the fold of what was completed, and the working one that of what is held on it; what is completed was prepared
/// before, and each transaction is settled once at most; scopes rise, those that are held are apart, and there are at most 64 of them and at most 4,096 records, which tell what was settled; what is not held has no rests, and each rest came with a Config
/// that was not too long; at most 64 associations stand, each of a control element; and the kept reply has the correlator of the epoch and the sequence. What is registered for events passes every test that the opening passes and the store
/// keeps, and no event is left to tell where the store leaves none.
pub fn element_folds<G: Grounds>()
    ensures one_run { OneRun G.basis }
    ensures folds { ElementFolds G.basis }
    ensures keeps { ElementKeeps G.basis }
    ensures rests { RestsPass G.basis }
    ensures events { EventsPass G.basis }
    ensures quiet { EventsQuiet G.basis }
{}

/// At every moment of every script, whatever is lost, repeated or reordered, and whichever controllers and elements stop and return: no two elements settle one transaction differently; each that completes one had every participant prepared; each
/// settled configuration is the fold of what its element has completed; a Config of a life below an element's epoch changes nothing there; and what a master counts as settled was settled so at every participant. Each
/// element has become what it is in some runs, so what is said of the state of one element by itself holds of it.
pub fn headline<G: Grounds>()
    ensures whole { (opening : G.Config) (subs : G.Subs) (n : Network) (steps : List (Step G.Plan G.Change)) → Headline G.basis G.masters opening (run G.basis G.masters steps (first_world opening subs n)) }
    ensures lives { (opening : G.Config) (subs : G.Subs) (n : Network) (steps : List (Step G.Plan G.Change)) (p : ℕ) → Lived G.basis p (new_element opening subs (n.first_ce p)) ((run G.basis G.masters steps (first_world opening subs n)).at p) }
    ensures moments { (opening : G.Config) (subs : G.Subs) (n : Network) (steps : List (Step G.Plan G.Change)) (k : ℕ) → Headline G.basis G.masters opening (run G.basis G.masters (take k steps) (first_world opening subs n)) }
{}

/// Whatever arrives at an element, it becomes what the protocol says, says what the protocol says, and gives the facts that the protocol gives, in the circumstance that its state and the message make; and where the response
/// leaves out no operation that came with a start or a change, it shows the first of their codes that is not 00.
pub fn element_goes_by_the_protocol<G: Grounds>()
    ensures goes { (p k source : ℕ) (el : Element G.Config G.Op G.Subs) (m : Message G.Op) → Goes G.basis p el k source m (circumstance_of G.basis p el k source m) }
    ensures shown { (el : Element G.Config G.Op G.Subs) (m : Configuring G.Op) → AllByRecursion (λ op. G.basis.is_shown op ≡ true) m.ops → rest_shown G.basis el m m.body ≡ rest_of G.basis el m m.body }
{}

/// In every world: where a plan may begin at idle elements, its changes succeed one after the other on the settled configuration of each and lie in its scope there, and all messages from there on arrive once and in their order, until none is left,
/// every participant completes it, whatever else is held there, and the master's job is settled. That no message is left comes after some number of deliveries.
pub fn clean_rounds<G: Grounds>()
    ensures { (opening : G.Config) (subs : G.Subs) (n : Network) (steps : List (Step G.Plan G.Change)) → CleanRound G.basis G.masters (run G.basis G.masters steps (first_world opening subs n)) }
{}

/// Of a configuration by instances, in which an operation changes the instance that it lies at: operations at different instances commute; where each instance keeps what it refuses, so does the whole; and an operation that lies nowhere is refused,
/// where the code for that is not 00. So it is a store of which all the laws here hold.
pub fn a_configuration_by_instances_is_a_store<X, Op, Subs>()
    ensures apart { (place_of : Op → Option Place) (local : X → Op → X × ℕ) (nowhere no_instance : ℕ) (a b : Op) (p q : Place) → place_of a ≡ Some p → place_of b ≡ Some q → same_place p q ≡ false → Commute (by_instance place_of local nowhere no_instance) a b }
    ensures refused { (place_of : Op → Option Place) (local : X → Op → X × ℕ) (nowhere no_instance : ℕ) → KeepsRefused local → (c : List (Held X)) (op : Op) → (by_instance place_of local nowhere no_instance c op).1 ≢ 0 → (by_instance place_of local nowhere no_instance c op).0 ≡ c }
    ensures placeless { (place_of : Op → Option Place) (local : X → Op → X × ℕ) (nowhere no_instance : ℕ) → nowhere ≢ 0 → (c : List (Held X)) (op : Op) → place_of op ≡ None → (by_instance place_of local nowhere no_instance c op).1 ≢ 0 }
    ensures lawful { (g : Ground (List (Held X)) Op Subs) → ByInstances g → Lawful g }
{}
