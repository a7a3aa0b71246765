// The names of messages and operations.
ghost use Rattle.std.specs.Prelude.{◌≡◌};
ghost use Rattle.fc_showing.specs.Appending.{type_name};
ghost use Rattle.fc_text.specs.Text.{body_name, kind_name};

use fc_msg::{
    CONFIG, CONFIG_RESPONSE, EVENT, HEARTBEAT, MsgBody, QUERY, QUERY_RESPONSE, SETUP,
    SETUP_RESPONSE, TEARDOWN,
};
use fc_path::OperKind;

/// The name of a type of messages (RFC 5810, section 7).
pub fn type_name_of(kind: u8) -> &'static str
    ensures { result.now ≡ type_name kind }
{
    match kind {
        HEARTBEAT => "Heartbeat",
        SETUP_RESPONSE => "AssociationSetupResponse",
        TEARDOWN => "AssociationTeardown",
        SETUP => "AssociationSetup",
        CONFIG => "Config",
        CONFIG_RESPONSE => "ConfigResponse",
        QUERY => "Query",
        QUERY_RESPONSE => "QueryResponse",
        EVENT => "EventNotification",
        _ => "AssociationSetup",
    }
}

/// The name of a message's type.
pub fn message_name(body: &MsgBody) -> &'static str
    ensures { result.now ≡ body_name body.now }
{
    type_name_of(body.kind())
}

/// The name of an operation (RFC 5810, section 7.1.6).
pub fn operation_name(kind: OperKind) -> &'static str
    ensures { result.now ≡ kind_name kind }
{
    match kind {
        OperKind::Set => "SET",
        OperKind::SetProp => "SET-PROP",
        OperKind::SetResponse => "SET-RESPONSE",
        OperKind::SetPropResponse => "SET-PROP-RESPONSE",
        OperKind::Del => "DEL",
        OperKind::DelResponse => "DEL-RESPONSE",
        OperKind::Get => "GET",
        OperKind::GetProp => "GET-PROP",
        OperKind::GetResponse => "GET-RESPONSE",
        OperKind::GetPropResponse => "GET-PROP-RESPONSE",
        OperKind::Report => "REPORT",
    }
}
