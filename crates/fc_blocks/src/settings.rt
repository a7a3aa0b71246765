// The settings of heartbeats, as the configuration has them.
ghost use Rattle.std.specs.Prelude.{◌≡◌, IfOk};
ghost use Rattle.fc_blocks.specs.Settings as spec;

use fc_base::{List, Memory, OpFault};
use fc_path::{Spot, Step};
use fc_store::Store;
use fc_types::FE_PROTOCOL;
use fc_value::Value;
use std::alloc::Global;

// The components of the FE Protocol LFB that have the settings.
const CE_POLICY: u32 = 4;

const CE_DEAD: u32 = 5;

const FE_POLICY: u32 = 6;

const FE_INTERVAL: u32 = 7;

/// The settings of heartbeats, which are components of the FE Protocol LFB (RFC 5810, section 7.3.1; the policies are this profile's).
#[derive(Clone, Copy, Debug, PartialEq, Eq)]
pub struct HeartbeatSettings {
    /// CEHBPolicy: 0 the element ends associations that are silent for too long, 1 it does not.
    pub ce_policy: u32,
    /// CEHDI: so many milliseconds of silence are allowed.
    pub ce_dead: u32,
    /// FEHBPolicy: 1 the element sends heartbeats, 0 it does not.
    pub fe_policy: u32,
    /// FEHI: so many milliseconds pass between them at least.
    pub fe_interval: u32,
}

// A number of 32 bits, 0 where it is none.
fn word_of(number: i128) -> u32
    ensures { result ≡ spec.word_of number }
{
    if number < 0 || number >= 4_294_967_296 {
        0
    } else {
        number as u32
    }
}

// The number that a value is, 0 where it is none.
fn number_of(value: &Value) -> u32
    ensures { result ≡ spec.number_of value.now }
{
    match value {
        Value::Truth(_) => 0,
        Value::Number(number) => word_of(*number),
        Value::Text(_) => 0,
        Value::Raw(_) => 0,
        Value::Group(_) => 0,
        Value::Table(_) => 0,
    }
}

fn protocol_spot(alloc: Global, id: u32) -> Result<Spot, Memory>
    ensures { IfOk result (λ spot. spot ≡ spec.protocol_spot id) }
{
    let mut steps = List::new(alloc);
    steps.push(Step::Id(id))?;
    Ok(Spot {
        class: FE_PROTOCOL,
        instance: 1,
        steps,
    })
}

// The number that stands in a component of the FE Protocol LFB.
fn setting(alloc: Global, store: &Store, id: u32) -> Result<u32, Memory>
    ensures { IfOk result (λ number. number ≡ spec.setting id store.now) }
{
    let spot = protocol_spot(alloc, id)?;
    match store.look(&spot) {
        Ok((_, node)) => {
            let value = node.copy(alloc)?;
            Ok(number_of(&value))
        }
        Err(fault) => match fault {
            OpFault::Refused(_) => Ok(0),
            OpFault::Memory => Err(Memory),
        },
    }
}

/// The settings that a configuration has.
pub fn settings_in(alloc: Global, store: &Store) -> Result<HeartbeatSettings, Memory>
    ensures { IfOk result (λ settings. settings ≡ spec.settings_in store.now) }
{
    Ok(HeartbeatSettings {
        ce_policy: setting(alloc, store, CE_POLICY)?,
        ce_dead: setting(alloc, store, CE_DEAD)?,
        fe_policy: setting(alloc, store, FE_POLICY)?,
        fe_interval: setting(alloc, store, FE_INTERVAL)?,
    })
}
