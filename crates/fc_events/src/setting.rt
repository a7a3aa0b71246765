// What a SET-PROP makes of what is registered.
ghost use Rattle.std.specs.Prelude.{◌≡◌, [], IfOk, OnOk, OnErr};
ghost use Rattle.fc_events.specs.Subscribing as spec;
ghost use Rattle.fc_events.specs.Subscribing.{Set};
ghost use Rattle.fc_value.specs.Outcomes.{Gives};
ghost use Rattle.fc_watch.specs.Settings.{settings_after as after};

use crate::finding::event_at;
use crate::targets::sight_of;
use crate::{EventPlace, Subscription, Subscriptions};
use fc_base::{Memory, OpFault};
use fc_path::Spot;
use fc_store::Store;
use fc_watch::{Settings, Watch, read_settings};
use fc_wire::Ilv;
use std::alloc::Global;

// The memory that starts with what there is at the target.
fn first_watch(alloc: Global, store: &Store, place: EventPlace) -> Result<Option<Watch>, Memory>
    ensures { IfOk result (λ watch. watch ≡ spec.first_watch store.now place) }
{
    match sight_of(alloc, store, place)? {
        None => Ok(None),
        Some(sight) => {
            let present = sight.seen(alloc)?;
            Ok(Some(Watch::start(present)))
        }
    }
}

// The settings after ILVs.
fn settings_after(settings: Settings, ilvs: &[Ilv]) -> Result<Settings, OpFault>
    ensures { Gives (λ settings. settings) result (after [] settings ilvs.now) }
{
    match read_settings(settings, ilvs) {
        Ok(settings) => Ok(settings),
        Err(code) => Err(OpFault::Refused(code)),
    }
}

impl Subscriptions {
    // Gives an event other properties. After an `Err` nothing has changed.
    fn apply(&mut self, store: &Store, place: EventPlace, settings: Settings) -> Result<(), Memory>
        ensures ok { OnOk result (self.new ≡ spec.with_settings store.now place settings self.old) }
        ensures err { OnErr result (self.new ≡ self.old) }
    {
        if !settings.registered {
            self.leave(place);
            return Ok(());
        }
        let watch = first_watch(self.alloc(), store, place)?;
        self.enter(Subscription {
            place,
            settings,
            watch,
        })
    }

    // A SET-PROP of an event. After an `Err` nothing has changed.
    fn set_event(&mut self, store: &Store, place: EventPlace, ilvs: &[Ilv]) -> Result<(), OpFault>
        ensures { Set result (spec.set_event store.now ilvs.now self.old place) self.old self.new }
    {
        let settings = settings_after(self.settings_at(place), ilvs)?;
        self.apply(store, place, settings)?;
        Ok(())
    }

    /// A SET-PROP of the event that a spot names. The first of these gives the code: the class is unknown, `LFB_UNKNOWN`; the instance,
    /// `LFB_INSTANCE_ID_NOT_FOUND`; the first step is missing or a key, `INVALID_PATH`; it is not the base of the events, `READ_ONLY`;
    /// the steps behind it name no event of the class, `EVENT_ERROR`; an ILV is refused, as
    /// [`read_settings`](fc_watch::read_settings) tells it. An event that is then registered has a memory that starts anew, and one
    /// that is not has the properties that it opened with. After an `Err` nothing has changed.
    pub fn set_prop(&mut self, store: &Store, spot: &Spot, ilvs: &[Ilv]) -> Result<(), OpFault>
        ensures { Set result (spec.set_spot store.now spot.now ilvs.now self.old) self.old self.new }
    {
        let place = event_at(store.library(), store.instances(), spot)?;
        self.set_event(store, place, ilvs)
    }
}
