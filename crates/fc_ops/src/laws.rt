// Laws on the responses to queries.
ghost use Rattle.std.specs.Prelude.{◌≡◌, List, length, true};
ghost use Rattle.std.specs.List.{list_all};
ghost use Rattle.fc_path.specs.Results.{results_fit};
ghost use Rattle.fc_path.specs.declared.oper.Select.{Select as Selects};
ghost use Rattle.fc_ops.specs.Answering.{answered, is_queried, response_fits};
ghost use Rattle.fc_ops.specs.Filling.{leaves_in_selects};
ghost use Rattle.fc_ops.specs.declared.offers.Content.{Content as Contents};

/// The response with the contents that a query is answered with passes no length field, where that of results alone passes none.
pub fn answers_fit()
    ensures { (selects : List Selects) (cs : List Contents) → list_all is_queried selects ≡ true → results_fit selects ≡ true → length cs ≡ leaves_in_selects selects → response_fits selects (answered (response_fits selects) cs) ≡ true }
{}
