// What is heard in each message of an element.
ghost use Rattle.std.specs.Prelude.{◌≡◌, ℕ, List, Option, Some, true};
ghost use Rattle.std.specs.List.{list_all};
ghost use Rattle.fc_abiding.specs.Abiding.{IsNamed};
ghost use Rattle.fc_querying.specs.Answering.{Answers, AreNotices};
ghost use Rattle.fc_assoc.specs.Associations.{AssociationMap};
ghost use Rattle.fc_base.specs.Ids.{Txn};
ghost use Rattle.fc_element.specs.ElementMachine.{answer_to as heartbeat_answer, answer_with, beats_of, down_outs, leaving, setup_of, step};
ghost use Rattle.fc_element.specs.ElementState.{ElementState, opened};
ghost use Rattle.fc_element.specs.Runs.{after};
ghost use Rattle.fc_element.specs.declared.input.ElIn.{ElIn};
ghost use Rattle.fc_element.specs.declared.input.ElIn.TheVariants.{Moment};
ghost use Rattle.fc_events.specs.declared.subscriptions.Notice.{Notice as Notices};
ghost use Rattle.fc_hearing.specs.Hearing.{AnswersAreHeard, AreHeardAs, AreOthers, HeldIsHeard, IsAnswerable, IsHeardAs, RecordsAreHeard, ShowsCode};
ghost use Rattle.fc_msg.specs.declared.message.Message.{Message as Messages};
ghost use Rattle.fc_msg.specs.declared.message.MsgBody.TheVariants.{QueryResponse};
ghost use Rattle.fc_path.specs.declared.oper.Select.{Select as Selects};
ghost use Rattle.fc_performing.specs.Notices.{notice_outs};
ghost use Rattle.fc_performing.specs.declared.out.Out.{Out as Outs};
ghost use Rattle.fc_performing.specs.declared.out.Route.{Route as Routes};
ghost use Rattle.fc_protocol.specs.Messages.{Holds, Other_up, Setup, Tells, stamp};
ghost use Rattle.fc_protocol.specs.Messages as said;
ghost use Rattle.fc_protocol.specs.Records.{listed, seen, state_of};
ghost use Rattle.fc_querying.specs.Asking.{IsAskable, IsTxn, answer_to, held_query, record_query};
ghost use Rattle.fc_reply.specs.Replies.{reply};
ghost use Rattle.fc_transactions.specs.State.{TransactionState};
ghost use Rattle.fc_types.specs.Libraries.{is_own};
ghost use Rattle.fc_types.specs.declared.class.Class.{Class as Classes};

/// What an element sends to a peer that opens is heard as a wish for an association.
pub fn wishes_are_heard()
    ensures { (id : ℕ) → IsHeardAs (setup_of id) Setup }
{}

/// What tells of events is none of the protocol's messages: at a Config, when associations have ended, and when time has passed, with the heartbeats that go out then.
pub fn notices_are_heard()
    ensures notices { (library : List Classes) (r : Routes) (notices : List Notices) → AreOthers (notice_outs library r notices) }
    ensures behind { (s : TransactionState) (peer : ℕ) (m : Messages) (outs : List Outs) → AreNotices s peer m outs → AreOthers outs }
    ensures left { (s : ElementState) (remaining : AssociationMap) → AreOthers (leaving s remaining).outs }
    ensures moment { (s : ElementState) (moment : ℕ) → AreOthers (step s (Moment moment)).outs }
{}

/// Nor are heartbeats and the answers to heartbeats; they ask for no answer.
pub fn heartbeats_are_heard()
    ensures beats { (id : ℕ) (m : AssociationMap) → AreOthers (beats_of id m) }
    ensures answers { (m : Messages) → IsHeardAs (heartbeat_answer m) Other_up }
{}

/// The response to a Config as control elements send them shows a code, whatever the codes of its operations are.
pub fn responses_show_codes()
    ensures { (m : Messages) (selects : List Selects) (codes : List ℕ) (r : Messages) → IsAnswerable selects → reply m selects codes ≡ Some r → ShowsCode r }
{}

/// So, along a life, what an element keeps to answer a Config again, and what it sends at a Config, is heard as what the protocol keeps and says.
pub fn responses_are_heard()
    ensures { (s : TransactionState) (before : Option said.Message) (peer : ℕ) (m : Messages) (selects : List Selects) (codes : List ℕ) → IsAnswerable selects → AreHeardAs s.kept before
        → Answers s before peer m selects codes → AnswersAreHeard s before peer m selects codes }
{}

/// So every Config as control elements send them goes by the protocol, and what is kept and sent is heard so.
pub fn configs_are_heard()
    ensures { (s : TransactionState) (before : Option said.Message) (peer : ℕ) (m : Messages) (selects : List Selects) → IsNamed s → IsAnswerable selects → AreHeardAs s.kept before
        → (codes : List ℕ) × Answers s before peer m selects codes × AnswersAreHeard s before peer m selects codes }
{}

/// The answers of an element to the two questions are heard as what the protocol says, also where the other question waits, or one of another transaction.
pub fn answers_are_heard()
    ensures held { (s : TransactionState) (m : Messages) → IsAskable s → IsHeardAs (answer_with m (QueryResponse (answer_to s held_query))) (Holds (stamp m.corr) s.epoch (listed s.ledger.records.entries)) }
    ensures record { (s : TransactionState) (x : Txn) (m : Messages) → IsAskable s → IsTxn x
        → IsHeardAs (answer_with m (QueryResponse (answer_to s (record_query x)))) (Tells (stamp m.corr) x s.epoch (seen (state_of x s.ledger.records.entries))) }
{}

/// So an element answers these questions of any life of a control element, where they are associated: at once, by one message, which is heard as what the
/// protocol says, and it changes nothing.
pub fn questions_are_heard()
    ensures held { (s : ElementState) → IsAskable s.transactions → HeldIsHeard s }
    ensures record { (s : ElementState) → IsAskable s.transactions → RecordsAreHeard s }
{}

/// So does every element, after any inputs.
pub fn elements_are_heard()
    ensures held { (id ce : ℕ) (library : List Classes) (instances : List (ℕ × ℕ)) (is : List ElIn) → list_all is_own library ≡ true → HeldIsHeard (after (opened id ce library instances) is) }
    ensures record { (id ce : ℕ) (library : List Classes) (instances : List (ℕ × ℕ)) (is : List ElIn) → list_all is_own library ≡ true → RecordsAreHeard (after (opened id ce library instances) is) }
{}
