// Laws on what a master says, and on what a control element sends.
ghost use Rattle.std.specs.Prelude.{◌≡◌, ◌<◌, ◌^◌, false, ◌++◌, ◌∷◌, [], ℕ, List, Some, None, Ok, map};
ghost use Rattle.std.specs.List.{AllByRecursion};
ghost use Rattle.fc_base.specs.Ids.{Txn};
ghost use Rattle.fc_path.specs.declared.oper.Select.{Select};
ghost use Rattle.fc_hub.specs.declared.event.HubEvent.{HubEvent};
ghost use Rattle.fc_protocol.specs.MasterMachine.{Master, again, begin_refusal, begins, finish, forgets, gives_up, new_master, sends_one};
ghost use Rattle.fc_protocol.specs.Messages.{Plain};
ghost use Rattle.fc_plans.specs.Plans.{plan_fault};
ghost use Rattle.fc_plans.specs.declared.plan.Part.{Part};
ghost use Rattle.fc_documents.specs.Plans.{Planned, plan_of};
ghost use Rattle.fc_documents.specs.Parts.{begun};
ghost use Rattle.fc_documents.specs.declared.transaction.PlanTxn.{PlanTxn};
ghost use Rattle.fc_asks.specs.declared.life.Life.{Life};
ghost use Rattle.fc_jobs.specs.Plans.{changes_in, participants_of, scopes_in};
ghost use Rattle.fc_jobs.specs.Sending.{spelled};
ghost use Rattle.fc_jobs.specs.declared.sending.CeOut.{CeOut};
ghost use Rattle.fc_master.specs.Steps.{said, stepped};
ghost use Rattle.fc_master.specs.declared.input.CeIn.{CeIn};
ghost use Rattle.fc_control.specs.ControlNode.{ControlState, begins_one, comes, first_node, gives_up_one, is_refused, node_after, passes, refused_setup, sent, takes, tells_to_forget};
ghost use Rattle.fc_msg.specs.Messages.{IsProper};
ghost use Rattle.fc_msg.specs.declared.message.Message.{Message};
ghost use Rattle.fc_wellformed.specs.WellFormed.{AreWellFormed, HasChanges, IsChange, IsClear, IsWellFormed, KeepsChanges, TxnHolds, SpeaksClearly, all_sent, with_plain, with_plan};

/// A life that was asked to change nothing but changes begins to speak clearly.
pub fn masters_begin_clear()
    ensures { (life : Life) (es : List ℕ) → KeepsChanges life → SpeaksClearly life (new_master life.epoch es) }
{}

/// Whatever a master that speaks clearly hears or is asked to do, all that it says then is well formed, and it speaks clearly afterwards: what it
/// says after an input, and when it sends again what waits at an element, begins a transaction, makes a plain change, gives a transaction up or
/// tells its elements to forget.
pub fn masters_stay_clear()
    ensures step { (life : Life) (k : ℕ) (m : Master) (i : CeIn) → SpeaksClearly life m
        → SpeaksClearly life (stepped k m i).master × AreWellFormed (said life k m i) }
    ensures resend { (life : Life) (k : ℕ) (m : Master) (p : ℕ) → SpeaksClearly life m → AreWellFormed (spelled life (again k p (m.at p).waits)) }
    ensures begin { (life : Life) (k : ℕ) (m : Master) (plan : List Part) → AllByRecursion HasChanges plan → plan_fault plan ≡ None
        → begin_refusal m (participants_of plan) (changes_in plan) (scopes_in plan) ≡ None → SpeaksClearly life m
        → SpeaksClearly (with_plan life plan) (finish k (begins m (participants_of plan) (changes_in plan) (scopes_in plan))).master
        × AreWellFormed (spelled life (finish k (begins m (participants_of plan) (changes_in plan) (scopes_in plan))).says) }
    ensures plain { (life : Life) (k : ℕ) (m : Master) (p : ℕ) (selects : List Select) → IsChange selects → SpeaksClearly life m
        → SpeaksClearly (with_plain life p selects) (sends_one k m p (Some Plain)).master
        × AreWellFormed (spelled (with_plain life p selects) (sends_one k m p (Some Plain)).says) }
    ensures give_up { (life : Life) (k : ℕ) (m : Master) (x : Txn) → SpeaksClearly life m
        → SpeaksClearly life (finish k (gives_up m x)).master × AreWellFormed (spelled life (finish k (gives_up m x)).says) }
    ensures forget { (life : Life) (k : ℕ) (m : Master) → SpeaksClearly life m
        → SpeaksClearly life (finish k (forgets m)).master × AreWellFormed (spelled life (finish k (forgets m)).says) }
{}

/// Whatever a transaction of a document that is a plan changes, is a change.
pub fn planned_changes_are_changes()
    ensures { (bytes : List ℕ) (plan : Planned) → plan_of bytes ≡ Ok plan → AllByRecursion (λ (t : PlanTxn). AllByRecursion HasChanges (begun t)) plan.transactions }
{}

/// Whatever the node of a control element that is clear does with its master, it is clear then: where it gives it an input, gives a transaction up, begins
/// one that is not refused or tells its elements to forget, and so after each message of a peer and each moment. With what is said of its master at each of
/// these calls, every message that it says is well formed.
pub fn turns_stay_clear()
    ensures input { (i : CeIn) (n : ControlState) → IsClear n → IsClear (takes i n).state }
    ensures give_up { (x : Txn) (n : ControlState) → IsClear n → IsClear (gives_up_one x n).state }
    ensures begin { (t : PlanTxn) (n : ControlState) → is_refused (begun t) n ≡ false → TxnHolds t → IsClear n → IsClear (begins_one (begun t) n).state }
    ensures forget { (n : ControlState) → IsClear n → IsClear (tells_to_forget n).state }
    ensures message { (peer p : ℕ) (m : Message) (n : ControlState) → IsClear n → IsClear (comes peer p m n).state }
    ensures moment { (now : ℕ) (n : ControlState) → IsClear n → IsClear (passes now n).state }
{}

/// What the node itself answers to another sender than its element's is well formed too; and whatever is well formed, and has its IDs and its correlator within
/// their fields, as each message of the program by its type, is proper.
pub fn what_is_well_formed_is_proper()
    ensures refusal { (ce : ℕ) (m : Message) → IsWellFormed (refused_setup ce m) }
    ensures proper { (m : Message) → IsWellFormed m → m.source < 2 ^ 32 → m.dest < 2 ^ 32 → m.corr < 2 ^ 64 → IsProper m }
{}

/// A control element with the plan of a document speaks clearly after any events of its hub.
pub fn control_elements_stay_clear()
    ensures { (ce : ℕ) (life : Life) (bytes : List ℕ) (plan : Planned) (events : List HubEvent) → KeepsChanges life → plan_of bytes ≡ Ok plan
        → SpeaksClearly (node_after (first_node ce life plan.elements plan.transactions) events).control.life (node_after (first_node ce life plan.elements plan.transactions) events).control.core }
{}

/// Where all is well formed, all of it becomes acts of the hub, each its canonical bytes, to the peer of its element.
pub fn all_is_sent()
    ensures { (elements : List ℕ) (outs : List CeOut) → AreWellFormed outs → sent elements outs ≡ all_sent elements outs }
{}
