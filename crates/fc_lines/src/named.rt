// What the names of messages and operations mean.
ghost use Rattle.std.specs.Prelude.{◌≡◌};
ghost use Rattle.fc_lines.specs.LineReading.{message_named as message_of, number_named as number_of, operation_named as operation_of};

use crate::words::is;
use fc_msg::{
    CONFIG, CONFIG_RESPONSE, EVENT, HEARTBEAT, QUERY, QUERY_RESPONSE, SETUP, SETUP_RESPONSE,
    TEARDOWN,
};
use fc_path::{Operation, operation_for};

/// The type of the message of a name (RFC 5810, section 7).
#[tactic(auto, unfolding(crate::specs::LineReading::message_named))]
pub fn message_named(name: &[u8]) -> Option<u8>
    ensures { result ≡ message_of name.now }
{
    if is(name, b"Heartbeat") {
        return Some(HEARTBEAT);
    }
    if is(name, b"Config") {
        return Some(CONFIG);
    }
    if is(name, b"ConfigResponse") {
        return Some(CONFIG_RESPONSE);
    }
    if is(name, b"Query") {
        return Some(QUERY);
    }
    if is(name, b"QueryResponse") {
        return Some(QUERY_RESPONSE);
    }
    if is(name, b"EventNotification") {
        return Some(EVENT);
    }
    if is(name, b"AssociationSetup") {
        return Some(SETUP);
    }
    if is(name, b"AssociationSetupResponse") {
        return Some(SETUP_RESPONSE);
    }
    if is(name, b"AssociationTeardown") {
        return Some(TEARDOWN);
    }
    None
}

// The type of the operation of a name (RFC 5810, section 7.1.6).
#[tactic(auto, unfolding(crate::specs::LineReading::number_named))]
fn number_named(name: &[u8]) -> Option<u16>
    ensures { result ≡ number_of name.now }
{
    if is(name, b"SET") {
        return Some(1);
    }
    if is(name, b"SET-PROP") {
        return Some(2);
    }
    if is(name, b"SET-RESPONSE") {
        return Some(3);
    }
    if is(name, b"SET-PROP-RESPONSE") {
        return Some(4);
    }
    if is(name, b"DEL") {
        return Some(5);
    }
    if is(name, b"DEL-RESPONSE") {
        return Some(6);
    }
    if is(name, b"GET") {
        return Some(7);
    }
    if is(name, b"GET-PROP") {
        return Some(8);
    }
    if is(name, b"GET-RESPONSE") {
        return Some(9);
    }
    if is(name, b"GET-PROP-RESPONSE") {
        return Some(10);
    }
    if is(name, b"REPORT") {
        return Some(11);
    }
    if is(name, b"COMMIT") {
        return Some(12);
    }
    if is(name, b"COMMIT-RESPONSE") {
        return Some(13);
    }
    if is(name, b"TRCOMP") {
        return Some(14);
    }
    None
}

/// The operation of a name that may stand in a message of a type.
#[tactic(auto, unfolding(crate::specs::LineReading::operation_named))]
pub fn operation_named(message: u8, name: &[u8]) -> Option<Operation>
    ensures { result ≡ operation_of message name.now }
{
    match number_named(name) {
        Some(number) => operation_for(message, number),
        None => None,
    }
}
