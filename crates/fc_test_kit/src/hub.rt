ghost use Rattle.std.specs.Prelude.{◌≡◌};
ghost use Rattle.std.specs.List.{list_all};
ghost use Rattle.fc_hub.specs.Hubs.{is_given};

use fc_hub::HubEvent;

/// Whether a hub may tell each of these events: bytes are not empty, and the end stands in no list.
pub fn are_given(events: &[HubEvent]) -> bool
    ensures { result ≡ list_all is_given events.now }
{
    'events: for event in events {
        if !is_given(event) {
            return false;
        }
    }
    true
}

fn is_given(event: &HubEvent) -> bool
    ensures { result ≡ is_given event.now }
{
    match event {
        HubEvent::Bytes(_, bytes) => bytes.len() > 0,
        HubEvent::Over => false,
        _ => true,
    }
}
