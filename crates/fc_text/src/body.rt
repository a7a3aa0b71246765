// Text to the body of a Config.
ghost use Rattle.std.specs.Prelude.{◌≡◌, IfOk, Ok, List as Listed};
ghost use Rattle.fc_path.specs.declared.oper.Select.{Select as Spelled};
ghost use Rattle.fc_text.specs.FirstMisfit.{FirstMisfit, FitsSelects, IsWithin};
ghost use Rattle.fc_text.specs.TextGrammar.{SpellsSelects};
ghost use Rattle.fc_lines.specs.TextPlaces.{Gives, RefusedAt};
ghost use Rattle.fc_text.specs.TextReading.{body_in};

use crate::read_select::read_some_selects;
use fc_base::List;
use fc_lines::{Lines, TextFault};
use fc_msg::CONFIG;
use fc_path::Select;
use std::alloc::Global;

/// The LFBselects of the body of a Config, whose lines stand without the indentation that they have in a message; or the
/// first line that does not fit, with its first word that does not. There is at least one.
pub fn read_body(alloc: Global, bytes: &[u8]) -> Result<List<Select>, TextFault>
    ensures exact { Gives result (body_in bytes.now) }
    ensures spelled { IfOk result (λ ss. SpellsSelects ss bytes.now) }
    ensures only { (ss : Listed Spelled) → SpellsSelects ss bytes.now → Gives result (Ok ss) }
    ensures misfit { RefusedAt (λ p. FirstMisfit FitsSelects p bytes.now) result }
    ensures within { RefusedAt (λ p. IsWithin p bytes.now) result }
{
    read_whole_body(alloc, bytes)
}

#[tactic(auto, unfolding(crate::specs::TextReading::body_in))]
fn read_whole_body(alloc: Global, bytes: &[u8]) -> Result<List<Select>, TextFault>
    ensures { Gives result (body_in bytes.now) }
{
    let mut lines = Lines::over(bytes);
    let selects = read_some_selects(alloc, CONFIG, 0, &mut lines)?;
    lines.closed()?;
    Ok(selects)
}
