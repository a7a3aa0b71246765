// Laws of how `control` ends.
ghost use Rattle.std.specs.Prelude.{◌≡◌, ℕ, List, ◌∷◌, ◌++◌, Option, Some, Ok};
ghost use Rattle.fc_hub.specs.Hubs.{Held, holds};
ghost use Rattle.fc_hub.specs.Rounds.{Given};
ghost use Rattle.fc_hub.specs.declared.event.Act.{Act};
ghost use Rattle.fc_hub.specs.declared.event.HubEvent.{HubEvent};
ghost use Rattle.fc_hub.specs.declared.event.HubEvent.TheVariants.{Bytes};
ghost use Rattle.fc_controlling.specs.ControlRun.{ControlEnds};
ghost use Rattle.fc_controlling.specs.Outcomes.{CameTo, IsRunOut, outcome_of};
ghost use Rattle.fc_controlling.specs.RunsAlike.{EndAlike};
ghost use Rattle.fc_controlling.specs.declared.asked.Asked.{Asked};
ghost use Rattle.fc_controlling.specs.declared.asked.ControlEnd.{ControlEnd};
ghost use Rattle.fc_controlling.specs.declared.asked.ControlEnd.TheVariants.{Turns};

/// Where nothing fails and memory suffices, a known input, a known hub and the round that was taken decide how `control` ends, what it
/// does on the hub and what it writes, unless so many events are taken as are to be taken; and then they decide no other end.
pub fn control_ends_once()
    ensures outcome { (e : ControlEnd) (limit : ℕ) (asked : Asked) (document : List ℕ) (left : Option (List ℕ)) (given gave : Given) (coming : List HubEvent) (taken : ℕ) (done : List (ℕ × Act)) (new : Option Held) (old : List ℕ) (text : Option (List ℕ)) (source hub rounds : ℕ × ℕ)
        → IsRunOut e → ControlEnds limit asked source hub rounds (Ok e) (Some document) left given gave (Some (holds coming taken done)) new (Some old) text
        → CameTo (outcome_of limit asked document gave.last coming) e done new old text }
    ensures turns { (e : ControlEnd) (limit : ℕ) (asked : Asked) (document : List ℕ) (l k : Option (List ℕ)) (given gave : Given) (held : Held) (new other : Option Held) (o p n m : Option (List ℕ)) (read reads served serves took takes : ℕ × ℕ)
        → IsRunOut e → ControlEnds limit asked read served took (Ok e) (Some document) l given gave (Some held) new o n
        → ControlEnds limit asked reads serves takes (Ok Turns) (Some document) k given gave (Some held) other p m → ⊥ }
{}

/// Bytes of a peer that come in two pieces make the same of a run as the whole, wherever they are cut: where nothing fails, memory suffices
/// and neither run takes as many events as are to be taken, `control` ends with the same status, the same acts in the same order but for
/// their numbers of events, and the same report.
pub fn bytes_may_be_cut()
    ensures { (limit : ℕ) (asked : Asked) (document : List ℕ) (before after : List HubEvent) (peer : ℕ) (front back : List ℕ) (taken : ℕ) (done : List (ℕ × Act)) (given gave : Given) (one other : ControlEnd)
        (l k : Option (List ℕ)) (first second : Option Held) (old : List ℕ) (new renewed : Option (List ℕ)) (read reads served serves took takes : ℕ × ℕ) → IsRunOut one → IsRunOut other
        → ControlEnds limit asked read served took (Ok one) (Some document) l given gave (Some (holds (before ++ Bytes peer front ∷ Bytes peer back ∷ after) taken done)) first (Some old) new
        → ControlEnds limit asked reads serves takes (Ok other) (Some document) k given gave (Some (holds (before ++ Bytes peer (front ++ back) ∷ after) taken done)) second (Some old) renewed
        → EndAlike one other first second new renewed }
{}
