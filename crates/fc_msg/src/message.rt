// Messages.
ghost use Rattle.std.specs.Prelude.{◌≡◌, IfOk};
ghost use Rattle.fc_msg.specs.Bodies.{holding as body_holding};
ghost use Rattle.fc_msg.specs.Messages.{kind_of};

use fc_base::{Duplicate, List, Memory};
use fc_path::Select;
use fc_wire::Flags;

/// A message between a forwarding element and a control element (RFC 5810, section 7).
#[derive(Debug, PartialEq, Eq, Drop)]
pub struct Message {
    /// The ID of the sender.
    pub source: u32,
    /// The ID of the addressee.
    pub dest: u32,
    /// The correlator, which an answer repeats.
    pub corr: u64,
    pub flags: Flags,
    pub body: MsgBody,
}

/// What a message says.
#[derive(Debug, PartialEq, Eq, Drop)]
pub enum MsgBody {
    /// AssociationSetup: the sender asks to be associated, and may report on its LFBs (RFC 5810, section 7.5.1).
    Setup(List<Select>),
    /// AssociationSetupResponse with its result: 0 success, 1 ID invalid, 2 permission denied (section 7.5.2).
    SetupResponse(u32),
    /// AssociationTeardown with its reason: 0 normal, 1 loss of heartbeats, 2 out of bandwidth, 3 out of memory,
    /// 4 application crash, 255 other (section 7.5.3).
    Teardown(u32),
    /// Config: changes of components, in at least one LFBselect (section 7.6.1).
    Config(List<Select>),
    /// ConfigResponse: how each change ended (section 7.6.2).
    ConfigResponse(List<Select>),
    /// Query: which components are asked for (section 7.7.1).
    Query(List<Select>),
    /// QueryResponse: what they are (section 7.7.2).
    QueryResponse(List<Select>),
    /// EventNotification: what happened (section 7.8).
    Event(List<Select>),
    /// Heartbeat (section 7.10).
    Heartbeat,
}

/// The type of an AssociationSetup (RFC 5810, section 7.1.1, as all types of messages).
pub const SETUP: u8 = 0x01;

/// The type of an AssociationTeardown.
pub const TEARDOWN: u8 = 0x02;

/// The type of a Config.
pub const CONFIG: u8 = 0x03;

/// The type of a Query.
pub const QUERY: u8 = 0x04;

/// The type of an EventNotification.
pub const EVENT: u8 = 0x05;

/// The type of a PacketRedirect.
pub const REDIRECT: u8 = 0x06;

/// The type of a Heartbeat.
pub const HEARTBEAT: u8 = 0x0f;

/// The type of an AssociationSetupResponse.
pub const SETUP_RESPONSE: u8 = 0x11;

/// The type of a ConfigResponse.
pub const CONFIG_RESPONSE: u8 = 0x13;

/// The type of a QueryResponse.
pub const QUERY_RESPONSE: u8 = 0x14;

/// The type of an ASResult TLV.
pub const AS_RESULT: u16 = 0x0010;

/// The type of an ASTreason TLV.
pub const AS_REASON: u16 = 0x0011;

impl MsgBody {
    /// The type of a message with this body.
    pub fn kind(&self) -> u8
        ensures { result ≡ kind_of self.now }
    {
        match self {
            MsgBody::Setup(_) => SETUP,
            MsgBody::SetupResponse(_) => SETUP_RESPONSE,
            MsgBody::Teardown(_) => TEARDOWN,
            MsgBody::Config(_) => CONFIG,
            MsgBody::ConfigResponse(_) => CONFIG_RESPONSE,
            MsgBody::Query(_) => QUERY,
            MsgBody::QueryResponse(_) => QUERY_RESPONSE,
            MsgBody::Event(_) => EVENT,
            MsgBody::Heartbeat => HEARTBEAT,
        }
    }

    /// The body of a type that holds these selects; of a type that holds none, that of an AssociationSetup.
    pub fn holding(kind: u8, selects: List<Select>) -> MsgBody
        ensures { result ≡ body_holding kind selects }
    {
        match kind {
            CONFIG => MsgBody::Config(selects),
            CONFIG_RESPONSE => MsgBody::ConfigResponse(selects),
            QUERY => MsgBody::Query(selects),
            QUERY_RESPONSE => MsgBody::QueryResponse(selects),
            EVENT => MsgBody::Event(selects),
            _ => MsgBody::Setup(selects),
        }
    }
}

impl Duplicate for MsgBody {
    fn copy(&self) -> Result<Self, Memory> {
        match self {
            MsgBody::Setup(selects) => Ok(MsgBody::Setup(selects.copy()?)),
            MsgBody::SetupResponse(result) => Ok(MsgBody::SetupResponse(*result)),
            MsgBody::Teardown(reason) => Ok(MsgBody::Teardown(*reason)),
            MsgBody::Config(selects) => Ok(MsgBody::Config(selects.copy()?)),
            MsgBody::ConfigResponse(selects) => Ok(MsgBody::ConfigResponse(selects.copy()?)),
            MsgBody::Query(selects) => Ok(MsgBody::Query(selects.copy()?)),
            MsgBody::QueryResponse(selects) => Ok(MsgBody::QueryResponse(selects.copy()?)),
            MsgBody::Event(selects) => Ok(MsgBody::Event(selects.copy()?)),
            MsgBody::Heartbeat => Ok(MsgBody::Heartbeat),
        }
    }
}

impl Duplicate for Message {
    fn copy(&self) -> Result<Self, Memory> {
        let body = self.body.copy()?;
        Ok(Message {
            source: self.source,
            dest: self.dest,
            corr: self.corr,
            flags: self.flags,
            body,
        })
    }
}
