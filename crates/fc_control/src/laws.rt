// Laws of the node of a control element.
ghost use Rattle.std.specs.Prelude.{List, ℕ, ◌∷◌, ◌++◌};
ghost use Rattle.fc_hub.specs.declared.event.HubEvent.{HubEvent};
ghost use Rattle.fc_hub.specs.declared.event.HubEvent.TheVariants.{Bytes};
ghost use Rattle.fc_control.specs.ControlNode.{NodeState, node_step};
ghost use Rattle.fc_control.specs.Pieces.{AreAlike, MakeTheSame};

/// Bytes of a peer that come in two pieces make the same of a node as the whole, wherever they are cut: the same acts in
/// the same order, and the same node afterwards. So a run with such an event in two differs in the numbers of events alone.
pub fn bytes_may_be_cut()
    ensures event { (n : NodeState) (peer : ℕ) (front back : List ℕ)
        → AreAlike (node_step n (Bytes peer front)) (node_step (node_step n (Bytes peer front)).state (Bytes peer back)) (node_step n (Bytes peer (front ++ back))) }
    ensures run { (n : NodeState) (before after : List HubEvent) (peer : ℕ) (front back : List ℕ)
        → MakeTheSame n (before ++ Bytes peer front ∷ Bytes peer back ∷ after) (before ++ Bytes peer (front ++ back) ∷ after) }
{}
