// Laws of how `element` ends, and of the frames that a node takes.
ghost use Rattle.std.specs.Prelude.{◌≡◌, List, ℕ, Option, Some, Result, Ok, ◌∷◌, ◌++◌};
ghost use Rattle.fc_wire.specs.Frames.{Frames};
ghost use Rattle.fc_endings.specs.declared.stops.Stop.{Stop};
ghost use Rattle.fc_hub.specs.Hubs.{Held, holds};
ghost use Rattle.fc_hub.specs.declared.event.Act.{Act};
ghost use Rattle.fc_hub.specs.declared.event.HubEvent.{HubEvent};
ghost use Rattle.fc_hub.specs.declared.event.HubEvent.TheVariants.{Bytes};
ghost use Rattle.fc_peers.specs.Streams.{frames, rest};
ghost use Rattle.fc_serving.specs.ElementNode.{NodeState, node_step};
ghost use Rattle.fc_serving.specs.ElementRun.{ElementEnds, IsOutcome};
ghost use Rattle.fc_serving.specs.Pieces.{AreAlike, MakeTheSame};
ghost use Rattle.fc_serving.specs.RunsAlike.{EndAlike, IsRunOut};
ghost use Rattle.fc_serving.specs.declared.end.ElementEnd.{ElementEnd};

/// A known input and a known hub have one ending of `element` of those in which nothing failed: the hub has no more
/// events, so many were taken as are to be taken, or the input means no library or is too long.
pub fn element_ends_once()
    ensures { (e f : ElementEnd) (limit id ce turns : ℕ) (bytes : List ℕ) (held : Held) (l k : Option (List ℕ)) (new other : Option Held) (o p n m : Option (List ℕ)) (read reads served serves : ℕ × ℕ)
        → IsOutcome e → IsOutcome f → ElementEnds limit id ce turns read served (Ok e) (Some bytes) l (Some held) new o n
        → ElementEnds limit id ce turns reads serves (Ok f) (Some bytes) k (Some held) other p m → e ≡ f }
{}

/// Bytes of a peer that come in two pieces make the same of a node as the whole, wherever they are cut: the same acts in
/// the same order, and the same node afterwards. So a run with such an event in two differs in the numbers of events alone:
/// where nothing fails, memory suffices and neither run takes as many events as are to be taken, `element` ends with the same
/// status and the same report.
pub fn bytes_may_be_cut()
    ensures event { (n : NodeState) (peer : ℕ) (front back : List ℕ)
        → AreAlike (node_step n (Bytes peer front)) (node_step (node_step n (Bytes peer front)).state (Bytes peer back)) (node_step n (Bytes peer (front ++ back))) }
    ensures run { (n : NodeState) (before after : List HubEvent) (peer : ℕ) (front back : List ℕ)
        → MakeTheSame n (before ++ Bytes peer front ∷ Bytes peer back ∷ after) (before ++ Bytes peer (front ++ back) ∷ after) }
    ensures status { (limit id ce turns : ℕ) (document : List ℕ) (before after : List HubEvent) (peer : ℕ) (front back : List ℕ) (taken : ℕ) (done : List (ℕ × Act)) (one other : Result ElementEnd Stop)
        (l k : Option (List ℕ)) (first second : Option Held) (old : List ℕ) (new renewed : Option (List ℕ)) (read reads served serves : ℕ × ℕ) → IsRunOut one → IsRunOut other
        → ElementEnds limit id ce turns read served one (Some document) l (Some (holds (before ++ Bytes peer front ∷ Bytes peer back ∷ after) taken done)) first (Some old) new
        → ElementEnds limit id ce turns reads serves other (Some document) k (Some (holds (before ++ Bytes peer (front ++ back) ∷ after) taken done)) second (Some old) renewed
        → EndAlike one other first second new renewed }
{}

/// The frames that a node takes of the bytes of a peer are those of the stream, and less than one is left.
pub fn node_takes_the_frames()
    ensures { (bytes : List ℕ) → Frames bytes (frames bytes) (rest bytes) }
{}
