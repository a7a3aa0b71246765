// What is read in an answer.
ghost use Rattle.std.specs.Prelude.{◌≡◌, ℕ, List, true};
ghost use Rattle.std.specs.List.{list_all};
ghost use Rattle.fc_asks.specs.Queries.{query_meaning};
ghost use Rattle.fc_base.specs.Ids.{Txn};
ghost use Rattle.fc_element.specs.ElementState.{ElementState, opened};
ghost use Rattle.fc_element.specs.Runs.{after};
ghost use Rattle.fc_element.specs.declared.input.ElIn.{ElIn};
ghost use Rattle.fc_lives.specs.Lives.{life_after};
ghost use Rattle.fc_protocol.specs.Messages.{Ask, Ask_record, Holds, Stamp, Tells};
ghost use Rattle.fc_protocol.specs.Records.{listed, seen, state_of};
ghost use Rattle.fc_querying.specs.Asking.{AnswersHeld, AnswersRecords, IsAskable, IsTxn, answer_to, held_query, record_query};
ghost use Rattle.fc_transactions.specs.State.{TransactionState};
ghost use Rattle.fc_types.specs.Libraries.{is_own};
ghost use Rattle.fc_types.specs.declared.class.Class.{Class as Classes};

/// The answer of an element to the question for its epoch and for what it holds is read as that epoch and as these transactions, each with its state and
/// its participants; and the answer to the question for one record as the epoch and the state of that record, or that there is none.
pub fn answers_are_read()
    ensures held { (s : TransactionState) (m : Stamp) → IsAskable s → query_meaning Ask m (answer_to s held_query) ≡ Holds m s.epoch (listed s.ledger.records.entries) }
    ensures record { (s : TransactionState) (x : Txn) (m : Stamp) → IsAskable s → IsTxn x → query_meaning (Ask_record x) m (answer_to s (record_query x)) ≡ Tells m x s.epoch (seen (state_of x s.ledger.records.entries)) }
{}

/// So an element answers these questions of any life of a control element, where they are associated: at once, by one message, which is read as what the
/// protocol says, and it changes nothing.
pub fn questions_are_answered()
    ensures held { (s : ElementState) → IsAskable s.transactions → AnswersHeld s }
    ensures record { (s : ElementState) → IsAskable s.transactions → AnswersRecords s }
{}

/// Every element can be asked, after any inputs from any peers: its epoch is a number of 32 bits, each of its records is of what a life can have begun,
/// in such numbers, with at most 64 participants that rise, no two are of one transaction, no more are held and kept than may be, and its store has class
/// Mastership as each element has it. That the classes with which it was made are none of those that each element has is all that is asked.
pub fn elements_can_be_asked()
    ensures { (id ce : ℕ) (library : List Classes) (instances : List (ℕ × ℕ)) (is : List ElIn) → list_all is_own library ≡ true → IsAskable (life_after id ce library instances is).state }
{}

/// So every element answers the questions, after any inputs.
pub fn elements_answer_questions()
    ensures held { (id ce : ℕ) (library : List Classes) (instances : List (ℕ × ℕ)) (is : List ElIn) → list_all is_own library ≡ true → AnswersHeld (after (opened id ce library instances) is) }
    ensures record { (id ce : ℕ) (library : List Classes) (instances : List (ℕ × ℕ)) (is : List ElIn) → list_all is_own library ≡ true → AnswersRecords (after (opened id ce library instances) is) }
{}
