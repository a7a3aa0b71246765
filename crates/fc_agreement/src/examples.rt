//! Runs that compute: the laws of this crate are not empty.

ghost use Rattle.std.specs.Prelude.{◌≡◌, ℕ, true, false, List, [], ◌∷◌, ◌++◌, length, Some, None};
ghost use Rattle.fc_agreement.specs.CleanRound.{Able};
ghost use Rattle.fc_agreement.specs.Runs.{pair, lone, claiming, opening_steps, changing, clean, completing_failover, aborting_failover, late_give_up, repeated_end, repeated_claim, deposing, refused_change, beginning_two, two_at_once, forgetting, late_start, forgetting_failover, restarting, with_last, element_line, next_line, job_of, next_job_of, sent_since, after_steps, master_of};
ghost use Rattle.fc_protocol.specs.Examples.{first_controller, second_controller, place, the_txn, next_one};
ghost use Rattle.fc_protocol.specs.MasterMachine.{new_master, begin_refusal, plain_refusal, give_up_refusal, forget_refusal, Deposed, Stranger, NotReady, Busy, Spent, Unsettled, Unknown, Decided};
ghost use Rattle.fc_protocol.specs.Messages.{Reply, Tells};
ghost use Rattle.fc_protocol.specs.WorldSteps.{Forget};
ghost use Rattle.fc_protocol.specs.Trace.{Opened_at, Prepared_at, Claimed_at};
ghost use Rattle.fc_protocol.specs.declared.states.Decision.TheVariants.{Complete, Abort};
ghost use Rattle.fc_protocol.specs.declared.states.TxnState.TheVariants.{Prepared, Completed, Aborted};

/// Once both elements are claimed a transaction may begin at them. Where every message arrives once, both complete after 28 messages.
pub fn clean_round()
    ensures able { Able (after_steps pair claiming) 1 (master_of ((after_steps pair claiming).masters 1)) (1 ∷ 2 ∷ []) (λ _. 1) (λ _. []) }
    ensures first { element_line ((after_steps pair clean).at 1) ≡ record { epoch = 257; ce = first_controller; sequence = 4; state = Some Completed } }
    ensures second { element_line ((after_steps pair clean).at 2) ≡ record { epoch = 257; ce = first_controller; sequence = 4; state = Some Completed } }
    ensures job { job_of ((after_steps pair clean).masters 1) ≡ Some (record { decision = Some Complete; settled = true }) }
    ensures sent { length (after_steps pair clean).sent ≡ 28 }
{}

/// Where the first controller stops after its decision, the second completes; the old TRCOMP is answered 0C and changes nothing.
pub fn failover_completes()
    ensures first { element_line ((after_steps pair completing_failover).at 1) ≡ record { epoch = 258; ce = second_controller; sequence = 0; state = Some Completed } }
    ensures second { element_line ((after_steps pair completing_failover).at 2) ≡ record { epoch = 258; ce = second_controller; sequence = 1; state = Some Completed } }
    ensures stopped { (after_steps pair completing_failover).masters 1 ≡ None }
    ensures job { job_of ((after_steps pair completing_failover).masters 2) ≡ Some (record { decision = Some Complete; settled = true }) }
    ensures late { sent_since 45 (after_steps pair completing_failover).sent ≡ Reply (record { life = 257; count = 4 }) 12 ∷ [] }
{}

/// Where the first controller stops before both have opened, the claim aborts; the late SOT is answered 0C and opens nothing.
pub fn failover_aborts()
    ensures first { element_line ((after_steps pair aborting_failover).at 1) ≡ record { epoch = 258; ce = second_controller; sequence = 0; state = Some Aborted } }
    ensures second { element_line ((after_steps pair aborting_failover).at 2) ≡ record { epoch = 258; ce = second_controller; sequence = 0; state = None } }
    ensures late { sent_since 23 (after_steps pair aborting_failover).sent ≡ Reply (record { life = 257; count = 1 }) 12 ∷ [] }
{}

/// Where the first controller gives up what all have prepared, and its aborts come late, the second completes; the first never sees it settled.
pub fn late_give_up_completes()
    ensures first { element_line ((after_steps pair late_give_up).at 1) ≡ record { epoch = 258; ce = second_controller; sequence = 1; state = Some Completed } }
    ensures second { element_line ((after_steps pair late_give_up).at 2) ≡ record { epoch = 258; ce = second_controller; sequence = 1; state = Some Completed } }
    ensures unsettled { job_of ((after_steps pair late_give_up).masters 1) ≡ Some (record { decision = Some Abort; settled = false }) }
    ensures job { job_of ((after_steps pair late_give_up).masters 2) ≡ Some (record { decision = Some Complete; settled = true }) }
    ensures sent { length (after_steps pair late_give_up).sent ≡ 46 }
{}

/// An end that arrives three times prepares once, and is answered three times alike.
pub fn repeated_end_prepares_once()
    ensures facts { (after_steps pair repeated_end).facts ≡ Prepared_at 1 the_txn ∷ Opened_at 2 the_txn (1 ∷ 2 ∷ []) ∷ Opened_at 1 the_txn (1 ∷ 2 ∷ []) ∷ Claimed_at 2 257 ∷ Claimed_at 1 257 ∷ [] }
    ensures replies { sent_since 22 (after_steps pair repeated_end).sent ≡ Reply (record { life = 257; count = 3 }) 0 ∷ Reply (record { life = 257; count = 3 }) 0 ∷ Reply (record { life = 257; count = 3 }) 0 ∷ [] }
{}

/// A claim that arrives three times claims once, and is answered three times alike.
pub fn repeated_claim_claims_once()
    ensures facts { (after_steps pair repeated_claim).facts ≡ Claimed_at 2 257 ∷ Claimed_at 1 257 ∷ [] }
    ensures replies { sent_since 12 (after_steps pair repeated_claim).sent ≡ Reply (record { life = 257; count = 0 }) 0 ∷ Reply (record { life = 257; count = 0 }) 0 ∷ [] }
{}

/// A master that hears of a greater epoch drops what waits, also at other elements, and begins nothing more.
pub fn replaced_master_is_deposed()
    ensures deposed { (master_of ((after_steps pair deposing).masters 1)).deposed ≡ Some 258 }
    ensures dropped { ((master_of ((after_steps pair deposing).masters 1)).at 2).waits ≡ None }
    ensures refused { begin_refusal (master_of ((after_steps pair deposing).masters 1)) (1 ∷ []) (λ _. 1) (λ _. []) ≡ Some (Deposed 258) }
{}

/// Why calls to begin or to give up a transaction are refused.
pub fn refused_calls()
    ensures stranger { begin_refusal (master_of ((after_steps pair claiming).masters 1)) (1 ∷ 3 ∷ []) (λ _. 1) (λ _. []) ≡ Some (Stranger 3) }
    ensures not_ready { begin_refusal (new_master 257 (1 ∷ [])) (1 ∷ 3 ∷ []) (λ _. 1) (λ _. []) ≡ Some (NotReady 1) }
    ensures busy { begin_refusal (master_of ((after_steps pair opening_steps).masters 1)) (2 ∷ []) (λ _. 1) (λ _. []) ≡ Some (Busy 2 (Some the_txn)) }
    ensures busy_all { begin_refusal (master_of ((after_steps pair beginning_two).masters 1)) (2 ∷ []) (λ _. 1) (λ _. []) ≡ Some (Busy 2 (Some the_txn)) }
    ensures busy_there { begin_refusal (master_of ((after_steps pair beginning_two).masters 1)) (2 ∷ []) (λ _. 1) (place 2) ≡ Some (Busy 2 (Some next_one)) }
    ensures apart { begin_refusal (master_of ((after_steps pair beginning_two).masters 1)) (2 ∷ []) (λ _. 1) (place 3) ≡ None }
    ensures plain_busy { plain_refusal (master_of ((after_steps pair beginning_two).masters 1)) 2 ≡ Some (Busy 2 (Some the_txn)) }
    ensures spent { begin_refusal (with_last 2 4294967284 (master_of ((after_steps pair beginning_two).masters 1))) (2 ∷ []) (λ _. 1) (place 3) ≡ Some Spent }
    ensures unspent { begin_refusal (with_last 2 4294967283 (master_of ((after_steps pair beginning_two).masters 1))) (2 ∷ []) (λ _. 1) (place 3) ≡ None }
    ensures forget_unsettled { forget_refusal (master_of ((after_steps pair opening_steps).masters 1)) ≡ Some (Unsettled the_txn) }
    ensures forget_not_ready { forget_refusal (new_master 257 (1 ∷ [])) ≡ Some (NotReady 1) }
    ensures forget_busy { forget_refusal (master_of ((after_steps pair (clean ++ Forget 1 ∷ [])).masters 1)) ≡ Some (Busy 1 None) }
    ensures begin_busy { begin_refusal (master_of ((after_steps pair (clean ++ Forget 1 ∷ [])).masters 1)) (2 ∷ []) (λ _. 1) (λ _. []) ≡ Some (Busy 2 None) }
    ensures forget_deposed { forget_refusal (master_of ((after_steps pair deposing).masters 1)) ≡ Some (Deposed 258) }
    ensures forget_spent { forget_refusal (with_last 2 4294967295 (master_of ((after_steps pair clean).masters 1))) ≡ Some Spent }
    ensures may_forget { forget_refusal (master_of ((after_steps pair clean).masters 1)) ≡ None }
    ensures busy_plain { begin_refusal (master_of ((after_steps pair changing).masters 1)) (2 ∷ []) (λ _. 1) (λ _. []) ≡ Some (Busy 2 None) }
    ensures unknown { give_up_refusal (master_of ((after_steps pair opening_steps).masters 1)) (record { epoch = 257; number = 2 }) ≡ Some Unknown }
    ensures decided { give_up_refusal (master_of ((after_steps pair clean).masters 1)) the_txn ≡ Some (Decided Complete) }
{}

/// A change that is refused with 0C undoes the transaction; the master asks whether it still is the master, and aborts.
pub fn refused_change_aborts()
    ensures element { element_line ((after_steps lone refused_change).at 1) ≡ record { epoch = 257; ce = first_controller; sequence = 3; state = Some Aborted } }
    ensures job { job_of ((after_steps lone refused_change).masters 1) ≡ Some (record { decision = Some Abort; settled = true }) }
    ensures sent { length (after_steps lone refused_change).sent ≡ 14 }
{}

/// Two transactions on different instances are held at once: where every message arrives once, both complete at both elements after 44 messages.
pub fn two_at_once_complete()
    ensures first { element_line ((after_steps pair two_at_once).at 1) ≡ record { epoch = 257; ce = first_controller; sequence = 8; state = Some Completed } }
    ensures first_next { next_line ((after_steps pair two_at_once).at 1) ≡ record { epoch = 257; ce = first_controller; sequence = 8; state = Some Completed } }
    ensures second { element_line ((after_steps pair two_at_once).at 2) ≡ record { epoch = 257; ce = first_controller; sequence = 8; state = Some Completed } }
    ensures second_next { next_line ((after_steps pair two_at_once).at 2) ≡ record { epoch = 257; ce = first_controller; sequence = 8; state = Some Completed } }
    ensures job { job_of ((after_steps pair two_at_once).masters 1) ≡ Some (record { decision = Some Complete; settled = true }) }
    ensures next_job { next_job_of ((after_steps pair two_at_once).masters 1) ≡ Some (record { decision = Some Complete; settled = true }) }
    ensures sent { length (after_steps pair two_at_once).sent ≡ 44 }
{}

/// What is settled is forgotten at both elements after four messages more; an old SOT that arrives then changes nothing, and a later life finds nothing to recover.
pub fn forgetting_forgets()
    ensures first { ((after_steps pair forgetting).at 1).floor ≡ Some next_one }
    ensures second { ((after_steps pair forgetting).at 2).floor ≡ Some next_one }
    ensures first_records { ((after_steps pair forgetting).at 1).records ≡ [] }
    ensures second_records { ((after_steps pair forgetting).at 2).records ≡ [] }
    ensures first_line { element_line ((after_steps pair forgetting).at 1) ≡ record { epoch = 257; ce = first_controller; sequence = 5; state = None } }
    ensures sent { length (after_steps pair forgetting).sent ≡ 32 }
    ensures late { sent_since 32 (after_steps pair late_start).sent ≡ Reply (record { life = 257; count = 1 }) 16 ∷ [] }
    ensures late_records { ((after_steps pair late_start).at 1).records ≡ [] }
    ensures no_job { (master_of ((after_steps pair forgetting_failover).masters 2)).jobs ≡ [] }
    ensures kept_floor { ((after_steps pair forgetting_failover).at 1).floor ≡ Some next_one }
{}

/// An element that stops and resumes before the end completes it, once it has connected anew and the end is sent again.
pub fn restart_completes()
    ensures second { element_line ((after_steps pair restarting).at 2) ≡ record { epoch = 257; ce = first_controller; sequence = 4; state = Some Completed } }
    ensures job { job_of ((after_steps pair restarting).masters 1) ≡ Some (record { decision = Some Complete; settled = true }) }
    ensures sent { length (after_steps pair restarting).sent ≡ 31 }
{}
