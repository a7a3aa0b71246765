// The properties of an event.
ghost use Rattle.std.specs.Prelude.{◌≡◌, ◌==◌, ◌<◌, [], IfOk, OnOk};
ghost use Rattle.std.specs.List.{list_any};
ghost use Rattle.fc_watch.specs.Settings as spec;

use crate::Condition;
use fc_base::{Code, List, Memory, Octets};
use fc_types::When;
use fc_wire::{Ilv, read_u32};
use std::alloc::Global;

const REGISTRATION: u32 = 2;

const THRESHOLD: u32 = 3;

const HYSTERESIS: u32 = 4;

const COUNT: u32 = 5;

/// The properties of an event that can be set.
#[derive(Clone, Copy, Debug, PartialEq, Eq)]
pub struct Settings {
    pub registered: bool,
    /// The threshold as its four bytes, which are signed where the numbers of the target are.
    pub threshold: u32,
    pub hysteresis: u32,
    /// How often the condition has to be satisfied for one notice.
    pub count: u32,
}

impl Settings {
    /// Those of an event for which nothing was set.
    pub fn opening() -> Settings
        ensures { result ≡ spec.opening }
    {
        Settings {
            registered: false,
            threshold: 0,
            hysteresis: 0,
            count: 1,
        }
    }

    /// When the event happens that is declared with this, on a target with these settings.
    pub fn condition(self, when: When, signed: bool) -> Condition
        ensures { result ≡ spec.condition_of when signed self }
    {
        Condition {
            when,
            threshold: threshold_of(signed, self.threshold),
            hysteresis: self.hysteresis,
            count: self.count,
        }
    }
}

fn threshold_of(signed: bool, word: u32) -> i64
    ensures { result ≡ spec.threshold_of signed word }
{
    if signed && word >= 0x8000_0000 {
        i64::from(word) - 0x1_0000_0000
    } else {
        i64::from(word)
    }
}

fn with_word(settings: Settings, ident: u32, word: u32) -> Result<Settings, Code>
    ensures { result ≡ spec.with_word settings ident word }
{
    let mut now = settings;
    if ident == REGISTRATION {
        if word > 1 {
            return Err(Code::VALUE_OUT_OF_RANGE);
        }
        now.registered = word == 1;
        Ok(now)
    } else if ident == THRESHOLD {
        now.threshold = word;
        Ok(now)
    } else if ident == HYSTERESIS {
        now.hysteresis = word;
        Ok(now)
    } else if word == 0 {
        Err(Code::VALUE_OUT_OF_RANGE)
    } else {
        now.count = word;
        Ok(now)
    }
}

fn has(before: &[Ilv], ident: u32) -> bool
    ensures { result ≡ list_any (λ other. other.ident == ident) before.now }
{
    before.iter().any(|other| other.ident == ident)
}

fn with_prop(before: &[Ilv], settings: Settings, ilv: &Ilv) -> Result<Settings, Code>
    ensures { result ≡ spec.with_prop before.now settings ilv.now }
{
    if ilv.ident < REGISTRATION || ilv.ident > COUNT {
        Err(Code::INVALID_PARAMETERS)
    } else if has(before, ilv.ident) {
        Err(Code::INVALID_TLV)
    } else if ilv.value.len() != 4 {
        Err(Code::INVALID_TLV)
    } else {
        with_word(settings, ilv.ident, read_u32(ilv.value.as_slice(), 0))
    }
}

/// The settings after a SET-PROP of an event. The first ILV that is refused gives the code, by the first of these: no property that can
/// be set has its identifier, `INVALID_PARAMETERS`; one before it has the same, `INVALID_TLV`; its value has not four bytes,
/// `INVALID_TLV`; a registration above 1, or a count of 0, `VALUE_OUT_OF_RANGE`.
pub fn read_settings(settings: Settings, ilvs: &[Ilv]) -> Result<Settings, Code>
    ensures { result ≡ spec.settings_after [] settings ilvs.now }
{
    let mut now = settings;
    for (at, ilv) in ilvs.iter().enumerate() {
        match with_prop(&ilvs[..at], now, ilv) {
            Ok(next) => now = next,
            Err(code) => return Err(code),
        }
    }
    Ok(now)
}

/// Appends a property whose value has four bytes.
pub fn push_prop(props: &mut List<Ilv>, ident: u32, word: u32) -> Result<(), Memory>
    ensures { OnOk result (props.new ≡ spec.with_prop_told props.old ident word) }
{
    let value = Octets::from_slice(props.alloc(), &word.to_be_bytes())?;
    props.push(Ilv { ident, value })
}

/// The properties of an event, by rising identifier.
pub fn event_props(alloc: Global, settings: Settings) -> Result<List<Ilv>, Memory>
    ensures { IfOk result (λ props. props ≡ spec.event_props settings) }
{
    let mut props = List::new(alloc);
    push_prop(&mut props, REGISTRATION, u32::from(settings.registered))?;
    push_prop(&mut props, THRESHOLD, settings.threshold)?;
    push_prop(&mut props, HYSTERESIS, settings.hysteresis)?;
    push_prop(&mut props, COUNT, settings.count)?;
    Ok(props)
}
