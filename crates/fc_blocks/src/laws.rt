// What holds of the answers to queries.
ghost use Rattle.std.specs.Prelude.{◌≡◌, List, map};
ghost use Rattle.fc_events.specs.declared.subscriptions.Subscription.{Subscription as Subscribed};
ghost use Rattle.fc_ops.specs.Asking.{Asked, contents_of};
ghost use Rattle.fc_store.specs.Stores.{Stored};
ghost use Rattle.fc_blocks.specs.Queries.{Telling, own_content, props_of};

/// The properties that are told of the GET-PROP leaves of a query, one after the other, stand each in its own leaf.
pub fn properties_stand_in_their_leaves()
    ensures { (told : Telling) (store : Stored) (subs : List Subscribed) (asked : List Asked) → contents_of told store (props_of told store subs asked) asked ≡ map (own_content told store subs) asked }
{}
