// What holds of what is told.
ghost use Rattle.std.specs.Prelude.{◌≡◌, [], List, ℕ, Ok};
ghost use Rattle.std.specs.List.{AllByRecursion};
ghost use Rattle.fc_store.specs.Stores.{Stored};
ghost use Rattle.fc_path.specs.declared.oper.Spot.{Spot};
ghost use Rattle.fc_wire.specs.declared.ilvs.Ilv.{Ilv};
ghost use Rattle.fc_events.specs.Order.{DoRise, NeverFall, places, told_places};
ghost use Rattle.fc_events.specs.Subscribing.{entered, set_spot, without_event};
ghost use Rattle.fc_events.specs.declared.subscriptions.EventPlace.{EventPlace};
ghost use Rattle.fc_events.specs.Reports.{IsSettled, reports, reports_but};
ghost use Rattle.fc_events.specs.declared.subscriptions.Subscription.{Subscription};

/// A second evaluation of what is registered, at the same configuration, tells nothing and changes nothing.
pub fn a_second_report_tells_nothing()
    ensures { (s : Stored) (subs : List Subscription) → reports s (reports s subs).0 ≡ ((reports s subs).0, []) }
{}

/// Where the events at some instances are as an evaluation at the settled configuration left them, and all others see there what they see
/// now, an evaluation of these others now is one of all events at the settled configuration.
pub fn held_events_tell_nothing()
    ensures { (held : List (ℕ × ℕ)) (now settled : Stored) (subs : List Subscription) → AllByRecursion (IsSettled held now settled) subs → reports_but held now subs ≡ reports settled subs }
{}

/// Events that are registered in their order, by class, instance and ID, stay so: where one is entered or taken out, after a SET-PROP, and
/// after an evaluation.
pub fn registered_events_rise()
    ensures entered { (sub : Subscription) (subs : List Subscription) → DoRise (places subs) → DoRise (places (entered sub subs)) }
    ensures left { (p : EventPlace) (subs : List Subscription) → DoRise (places subs) → DoRise (places (without_event p subs)) }
    ensures set { (s : Stored) (spot : Spot) (ilvs : List Ilv) (subs others : List Subscription) → DoRise (places subs) → set_spot s spot ilvs subs ≡ Ok others → DoRise (places others) }
    ensures reported { (held : List (ℕ × ℕ)) (s : Stored) (subs : List Subscription) → DoRise (places subs) → DoRise (places (reports_but held s subs).0) }
{}

/// What is told of events in their order is in that order too.
pub fn notices_never_fall()
    ensures { (held : List (ℕ × ℕ)) (s : Stored) (subs : List Subscription) → DoRise (places subs) → NeverFall (told_places (reports_but held s subs).1) }
{}
