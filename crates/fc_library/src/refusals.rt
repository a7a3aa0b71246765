// The line that tells why a document is refused.
ghost use Rattle.std.specs.Prelude.{◌≡◌, ◌≢◌, IfOk, codes, decimal};
ghost use Rattle.fc_library.specs.Refusals as spec;
ghost use Rattle.fc_library.specs.declared.fault.LibFault.TheVariants as faults;

use crate::fault::{DocumentRule, LibFault};
use fc_base::Memory;
use fc_types::CheckFault;
use std::alloc::Global;

/// The line that tells the fault of a document of some kind, as `library`: `refused KIND RULE NAME`, and a line feed. A key
/// is written as it stands.
pub fn refusal(alloc: Global, kind: &str, fault: &LibFault) -> Result<Vec<u8>, Memory>
    requires { fault.now ≢ faults.Memory }
    ensures { IfOk result (λ line. line.items ≡ spec.refusal_text kind.now fault.now) }
{
    match fault {
        LibFault::NotToml => line(alloc, kind, "nottoml", ""),
        LibFault::Unknown(key) => line(alloc, kind, "unknown ", key.as_str()),
        LibFault::Missing(key) => line(alloc, kind, "missing ", key.as_str()),
        LibFault::WrongKind(key) => line(alloc, kind, "wrongkind ", key.as_str()),
        LibFault::Check(fault) => line(alloc, kind, "check ", check_word(*fault)),
        LibFault::Rule(rule) => line(alloc, kind, "rule ", rule_word(*rule)),
        LibFault::StepText(place) => place_line(alloc, kind, *place),
        LibFault::Memory => Err(Memory),
    }
}

// A line of a kind of document, a rule and what it names.
fn line(alloc: Global, kind: &str, rule: &str, name: &str) -> Result<Vec<u8>, Memory>
    ensures { IfOk result (λ line. line.items ≡ spec.line kind.now rule.now name.now) }
{
    let mut line = Vec::from_slice(alloc, b"refused ")?;
    line.extend_from_slice(kind.as_bytes())?;
    line.extend_from_slice(b" ")?;
    line.extend_from_slice(rule.as_bytes())?;
    line.extend_from_slice(name.as_bytes())?;
    line.extend_from_slice(b"\n")?;
    Ok(line)
}

// The line of a place among the steps.
fn place_line(alloc: Global, kind: &str, place: usize) -> Result<Vec<u8>, Memory>
    ensures { IfOk result (λ line. line.items ≡ spec.line kind.now (codes "step ") (decimal place)) }
{
    let digits = format!(in alloc; "{place}")?;
    line(alloc, kind, "step ", digits.as_str())
}

// The name of a rule.
fn rule_word(rule: DocumentRule) -> &'static str
    ensures { result.now ≡ spec.rule_word rule }
{
    match rule {
        DocumentRule::TooMany => "toomany",
        DocumentRule::Element => "element",
        DocumentRule::Controller => "controller",
        DocumentRule::Name => "name",
        DocumentRule::Body => "body",
        DocumentRule::Addresses => "addresses",
    }
}

// The name of a fault of the check, in lower case.
fn check_word(fault: CheckFault) -> &'static str
    ensures { result.now ≡ spec.check_word fault }
{
    match fault {
        CheckFault::TooMany => "toomany",
        CheckFault::DuplicateId => "duplicateid",
        CheckFault::TooDeep => "toodeep",
        CheckFault::BadRange => "badrange",
        CheckFault::KeyNotAtomic => "keynotatomic",
        CheckFault::BadTarget => "badtarget",
        CheckFault::UnknownClass => "unknownclass",
        CheckFault::Memory => "memory",
    }
}
