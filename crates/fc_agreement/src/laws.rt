//! The laws of the protocol. Each function has no body: what it ensures holds of the definitions in specs/.

ghost use Rattle.std.specs.Prelude.{◌≡◌, ℕ, ◌<◌, List, []};
ghost use Rattle.fc_agreement.specs.Agreement.{Agree, SettleOnce, Ready, OnePlan, Settled, SettledWhole, BegunOnce, SaysOnce, SaysDecision, FollowsCore, FloorsSettle, FloorsReach, FloorsAnswered, AtRest, Bounded};
ghost use Rattle.fc_agreement.specs.CleanRound.{CleanRound};
ghost use Rattle.fc_agreement.specs.Core.{Core, Move, moves, start};
ghost use Rattle.fc_agreement.specs.CoreLaws.{OneEnd, PreparedBefore, PreparedDecided, ReachedDecided, NoLaterAbort, AnswersStay, EndsStay, DecisionsStay};
ghost use Rattle.fc_agreement.specs.Restarts.{OneRun, with_restarts};
ghost use Rattle.fc_agreement.specs.Scopes.{RisingScopes};
ghost use Rattle.fc_protocol.specs.ElementMachine.{ElementState, new_element, Circumstance, hears};
ghost use Rattle.fc_protocol.specs.Messages.{Stamp, Body};
ghost use Rattle.fc_protocol.specs.OneElement.{Arrival, PreparedFirst, SettlesOnce, RecordsTell, FloorClear, Distinct, Limited, ScopesApart, FewParticipants, Owned};
ghost use Rattle.fc_protocol.specs.WorldSteps.{Network, Step, first_world, run};

/// Of one transaction of a life of the epoch `own`, with the participants `parts`, over every list of moves from the start; and, where it says so, over every further list of moves.
pub fn core_laws()
    ensures one_end { (own : ℕ) (parts : List ℕ) (ms : List Move) → OneEnd (moves own parts ms start) }
    ensures prepared_before { (own : ℕ) (parts : List ℕ) (ms : List Move) → PreparedBefore parts (moves own parts ms start) }
    ensures prepared_decided { (own : ℕ) (parts : List ℕ) (ms : List Move) → PreparedDecided parts (moves own parts ms start) }
    ensures reached_decided { (own : ℕ) (parts : List ℕ) (ms : List Move) → ReachedDecided own parts (moves own parts ms start) }
    ensures no_later_abort { (own : ℕ) (parts : List ℕ) (ms : List Move) → NoLaterAbort own (moves own parts ms start) }
    ensures answers_stay { (own : ℕ) (parts : List ℕ) (ms ns : List Move) → AnswersStay own (moves own parts ms start) (moves own parts ns (moves own parts ms start)) }
    ensures ends_stay { (own : ℕ) (parts : List ℕ) (ms : List Move) (c : Core) → EndsStay c (moves own parts ms c) }
    ensures decisions_stay { (own : ℕ) (parts : List ℕ) (ms : List Move) (c : Core) → DecisionsStay c (moves own parts ms c) }
{}

/// Of every network and every list of steps, whatever is lost, repeated or reordered, and whatever lives come and go.
pub fn agreement()
    ensures agree { (n : Network) (steps : List Step) → Agree (run steps (first_world n)).facts }
    ensures once { (n : Network) (steps : List Step) → SettleOnce (run steps (first_world n)).facts }
    ensures ready { (n : Network) (steps : List Step) → Ready (run steps (first_world n)).facts }
    ensures one_plan { (n : Network) (steps : List Step) → OnePlan (run steps (first_world n)).facts }
    ensures settled { (n : Network) (steps : List Step) → Settled (run steps (first_world n)) }
    ensures settled_whole { (n : Network) (steps : List Step) → SettledWhole (run steps (first_world n)) }
    ensures begun_once { (n : Network) (steps : List Step) → BegunOnce (run steps (first_world n)) }
    ensures says_once { (n : Network) (steps : List Step) → SaysOnce (run steps (first_world n)) }
    ensures says_decision { (n : Network) (steps : List Step) → SaysDecision (run steps (first_world n)) }
    ensures follows_core { (n : Network) (steps more : List Step) → FollowsCore (run steps (first_world n)) (run more (run steps (first_world n))) }
    ensures floors_settle { (n : Network) (steps : List Step) → FloorsSettle (run steps (first_world n)) }
    ensures floors_reach { (n : Network) (steps : List Step) → FloorsReach (run steps (first_world n)) }
    ensures floors_answered { (n : Network) (steps : List Step) → FloorsAnswered (run steps (first_world n)) }
    ensures at_rest { (n : Network) (steps : List Step) → AtRest (run steps (first_world n)) }
    ensures bounded { (n : Network) (steps : List Step) → Bounded (run steps (first_world n)) }
{}

/// A request of a life below an element's epoch changes nothing there, in any part, and gives no fact, whoever sends it and whatever it says.
pub fn fenced()
    ensures { (p : ℕ) (el : ElementState) (k : ℕ) (c : Circumstance) (m : Stamp) (b : Body) → m.life < el.epoch → ((hears p el k c m b).element ≡ el) × ((hears p el k c m b).facts ≡ []) }
{}

/// Of one element by itself over its whole life, whatever requests it is sent, by whomever, and however often it stops and resumes: it completes only what it has prepared and settles a transaction at most once, its records tell what it has
/// settled and is not below its floor, no record is below it, no two are of one transaction, no two scopes of what is held meet, at most 64 are held, and there are at most 4,096, each with at most 64 participants and a scope that rises and names no instance of the control class;
/// its epoch is 0 or one, and only while it is 0 it has no master.
pub fn one_element()
    ensures one_run { (p ce : ℕ) (arrivals : List Arrival) → OneRun p ce arrivals }
    ensures prepared_first { (p ce : ℕ) (runs : List (List Arrival)) → PreparedFirst p (with_restarts p runs (new_element ce) []).facts }
    ensures settles_once { (p ce : ℕ) (runs : List (List Arrival)) → SettlesOnce p (with_restarts p runs (new_element ce) []).facts }
    ensures records_tell { (p ce : ℕ) (runs : List (List Arrival)) → RecordsTell p (with_restarts p runs (new_element ce) []).element.floor (with_restarts p runs (new_element ce) []).element.records (with_restarts p runs (new_element ce) []).facts }
    ensures floor_clear { (p ce : ℕ) (runs : List (List Arrival)) → FloorClear (with_restarts p runs (new_element ce) []).element.floor (with_restarts p runs (new_element ce) []).element.records }
    ensures distinct { (p ce : ℕ) (runs : List (List Arrival)) → Distinct (with_restarts p runs (new_element ce) []).element.records }
    ensures apart { (p ce : ℕ) (runs : List (List Arrival)) → ScopesApart (with_restarts p runs (new_element ce) []).element.records }
    ensures rising { (p ce : ℕ) (runs : List (List Arrival)) → RisingScopes (with_restarts p runs (new_element ce) []).element.records }
    ensures few { (p ce : ℕ) (runs : List (List Arrival)) → FewParticipants (with_restarts p runs (new_element ce) []).element.records }
    ensures owned { (p ce : ℕ) (runs : List (List Arrival)) → Owned ce (with_restarts p runs (new_element ce) []).element }
    ensures limited { (p ce : ℕ) (runs : List (List Arrival)) → Limited (with_restarts p runs (new_element ce) []).element.records }
{}

/// In every world: where a transaction may begin at idle elements, and all messages from there on arrive once and in their order, until none is left, and the operations succeed, every participant completes it,
/// and the master's job is settled. That no message is left comes after some number of deliveries.
pub fn clean_rounds()
    ensures { (n : Network) (steps : List Step) → CleanRound (run steps (first_world n)) }
{}
