// What holds of each Config, and over all of them.
ghost use Rattle.std.specs.Prelude.{◌≡◌, ℕ, List, Option, true};
ghost use Rattle.std.specs.List.{list_all};
ghost use Rattle.fc_abiding.specs.Abiding.{IsNamed};
ghost use Rattle.fc_abiding.specs.Runs.{Came, life_of};
ghost use Rattle.fc_querying.specs.Answering.{Answers, AreSame, IsHeardWhole};
ghost use Rattle.fc_querying.specs.Mastership.{HasMastership};
ghost use Rattle.fc_element.specs.declared.input.ElIn.{ElIn};
ghost use Rattle.fc_lives.specs.Lives.{life_after};
ghost use Rattle.fc_msg.specs.declared.message.Message.{Message as Messages};
ghost use Rattle.fc_path.specs.declared.oper.Select.{Select as Selects};
ghost use Rattle.fc_protocol.specs.Messages as said;
ghost use Rattle.fc_store.specs.Stores.{Stored};
ghost use Rattle.fc_transactions.specs.State.{TransactionState};
ghost use Rattle.fc_types.specs.Libraries.{is_own};
ghost use Rattle.fc_types.specs.declared.class.Class.{Class as Classes};

/// Whatever a Config asks, and whatever the verdict of the fence: an element that keeps a reply as the protocol does becomes what the protocol says in
/// the circumstance that its state, the message and the codes of its operations make, keeps the same reply, and sends first the response that the
/// protocol says, or none where it says none; what it sends behind that are notices of events alone. Of the code this is said where the response shows one. Where the control element of an element that no life has claimed writes the epoch or the floor, and that is no claim,
/// the store gives the code; there it has to have class Mastership as each element has it.
pub fn configs_go_by_the_protocol()
    ensures { (s : TransactionState) (before : Option said.Message) (peer : ℕ) (m : Messages) (selects : List Selects) → IsNamed s → AreSame s.kept before
        → (codes : List ℕ) × Answers s before peer m selects codes }
{}

/// The store of an element has class Mastership so, after any inputs from any peers.
pub fn elements_have_mastership()
    ensures { (id ce : ℕ) (library : List Classes) (instances : List (ℕ × ℕ)) (is : List ElIn) → list_all is_own library ≡ true → HasMastership (life_after id ce library instances is).state.ledger.store }
{}

/// So a new element that some Configs came to is an element of the protocol that has heard some requests, and keeps the same reply.
pub fn lives_keep_the_reply()
    ensures { (id ce : ℕ) (store : Stored) (came : List Came) → IsHeardWhole id ce (life_of id ce store came) }
{}

/// And so is a whole element, after any inputs from any peers.
pub fn elements_keep_the_reply()
    ensures { (id ce : ℕ) (library : List Classes) (instances : List (ℕ × ℕ)) (is : List ElIn) → IsHeardWhole id ce (life_after id ce library instances is) }
{}
