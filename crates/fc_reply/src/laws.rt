// Laws on responses.
ghost use Rattle.std.specs.Prelude.{◌≡◌, List, ℕ, true, Some};
ghost use Rattle.fc_path.specs.Results.{results_fit};
ghost use Rattle.fc_path.specs.declared.oper.Select.{Select as Selects};
ghost use Rattle.fc_msg.specs.Messages.{IsProper, ProperSelects, message_fits};
ghost use Rattle.fc_msg.specs.declared.message.Message.{Message as Messages};
ghost use Rattle.fc_msg.specs.declared.message.MsgBody.TheVariants.{Config};
ghost use Rattle.fc_ops.specs.Filling.{selects_filled};
ghost use Rattle.fc_ops.specs.declared.offers.Content.{Content as Contents};
ghost use Rattle.fc_reply.specs.Answered.{answered_selects};
ghost use Rattle.fc_reply.specs.Replies.{reply};

/// A response can be encoded where the response of results alone passes no length field.
pub fn responses_fit()
    ensures { (m r : Messages) (selects : List Selects) (codes : List ℕ) → results_fit selects ≡ true → reply m selects codes ≡ Some r → message_fits r ≡ true }
{}

/// A response to a Config that the grammar has is a message that the grammar has.
pub fn responses_are_proper()
    ensures { (m r : Messages) (selects : List Selects) (codes : List ℕ) → IsProper m → m.body ≡ Config selects → reply m selects codes ≡ Some r → IsProper r }
{}

/// The selects of a query are ones that the grammar has in the response to a query, with any contents in their leaves, and with a result in each.
pub fn answers_are_proper()
    ensures filled { (selects : List Selects) (cs : List Contents) → ProperSelects 4 selects → ProperSelects 20 (selects_filled selects cs).0 }
    ensures refused { (selects : List Selects) (codes : List ℕ) → ProperSelects 4 selects → ProperSelects 20 (answered_selects selects codes) }
{}
