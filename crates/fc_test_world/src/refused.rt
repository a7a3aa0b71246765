// What a control element refuses, and hears, that no script brings about: elements that are not of its life or are lost, and a claim that is answered
// without a code.
use crate::fence::epoch;
use crate::said::{change, held, message, response};
use fc_base::{CeId, FeId, List, Memory, TxnId};
use fc_master::{BeginFault, CeIn, CeOut, Change, ForgetFault, GiveUpFault, Master, TxnPlan};
use fc_msg::MsgBody;
use fc_path::OperKind;
use fc_test_kit::cut;
use std::alloc::Global;
use std::test::Fail;

// A control element of the epoch 1025 over element 1, and the correlator of what it sent last.
#[derive(Drop)]
struct Trial {
    alloc: Global,
    master: Master,
    corr: u64,
}

fn element(number: u32) -> Result<FeId, Fail> {
    Ok(FeId::of(number).ok_or("an element")?)
}

fn one_change(alloc: Global) -> Result<Change, Fail> {
    let selects = change(alloc, 1, OperKind::Set, 4)?;
    Ok(Change::of(selects).ok().ok_or("a change")?)
}

// A plan of one change at each element from one number to another.
fn plan(alloc: Global, first: u32, last: u32) -> Result<TxnPlan, Fail> {
    let mut parts = List::new(alloc);
    for number in first..=last {
        let mut changes = List::new(alloc);
        changes.push(one_change(alloc)?)?;
        parts.push((element(number)?, changes))?;
    }
    Ok(TxnPlan::of(parts).ok().ok_or("a plan")?)
}

// Why it does not begin, or sends no change.
fn why(alloc: Global, fault: BeginFault) -> Result<String, Memory> {
    match fault {
        BeginFault::Deposed { seen } => Ok(format!(in alloc; "deposed {seen}")?),
        BeginFault::TooMany { count } => Ok(format!(in alloc; "toomany {count}")?),
        BeginFault::Stranger { element } => Ok(format!(in alloc; "stranger {}", element.get())?),
        BeginFault::NotReady { element } => Ok(format!(in alloc; "notready {}", element.get())?),
        BeginFault::Busy { element, txn: _ } => Ok(format!(in alloc; "busy {}", element.get())?),
        BeginFault::Spent => Ok(format!(in alloc; "spent")?),
        BeginFault::Memory => Err(Memory),
    }
}

// Why it does not forget.
fn why_not(alloc: Global, fault: ForgetFault) -> Result<String, Memory> {
    match fault {
        ForgetFault::Deposed { seen } => Ok(format!(in alloc; "deposed {seen}")?),
        ForgetFault::NotReady { element } => Ok(format!(in alloc; "notready {}", element.get())?),
        ForgetFault::Busy { element, txn: _ } => Ok(format!(in alloc; "busy {}", element.get())?),
        ForgetFault::Unsettled { txn: _ } => Ok(format!(in alloc; "unsettled")?),
        ForgetFault::Spent => Ok(format!(in alloc; "spent")?),
        ForgetFault::Memory => Err(Memory),
    }
}

impl Trial {
    fn new(alloc: Global) -> Result<Trial, Fail> {
        let ce = CeId::of(0x4000_0001).ok_or("a control element")?;
        let master = Master::new(alloc, ce, &[element(1)?], epoch(1025)?)?;
        Ok(Trial {
            alloc,
            master,
            corr: 0,
        })
    }

    // How many messages are sent.
    fn sent(&mut self, outs: List<CeOut>) -> Result<String, Memory> {
        let count = outs.len();
        if let Some(last) = outs.as_slice().last() {
            self.corr = last.message.corr;
        }
        Ok(format!(in self.alloc; "{count}")?)
    }

    // At what the element says.
    fn hears(&mut self, body: MsgBody) -> Result<String, Fail> {
        let said = message(self.corr, body);
        let outs = self.master.step(CeIn::Arrived(element(1)?, said))?;
        Ok(self.sent(outs)?)
    }

    // To begin a transaction over the elements from one number to another.
    fn begin(&mut self, first: u32, last: u32) -> Result<String, Fail> {
        let plan = plan(self.alloc, first, last)?;
        match self.master.begin(plan) {
            Ok((_, outs)) => Ok(self.sent(outs)?),
            Err(fault) => Ok(why(self.alloc, fault)?),
        }
    }

    // To send a plain change to an element.
    fn plain(&mut self, number: u32) -> Result<String, Fail> {
        let change = one_change(self.alloc)?;
        match self.master.plain(element(number)?, change) {
            Ok(outs) => Ok(self.sent(outs)?),
            Err(fault) => Ok(why(self.alloc, fault)?),
        }
    }

    // To give up a transaction that it has not begun.
    fn give_up(&mut self) -> Result<String, Fail> {
        let txn = TxnId::of(epoch(1025)?, 9).ok_or("a transaction")?;
        match self.master.give_up(txn) {
            Err(GiveUpFault::Deposed { seen }) => Ok(format!(in self.alloc; "deposed {seen}")?),
            _ => Err(Fail::from("another answer")),
        }
    }

    fn forget(&mut self) -> Result<String, Fail> {
        match self.master.forget() {
            Ok(outs) => Ok(self.sent(outs)?),
            Err(fault) => Ok(why_not(self.alloc, fault)?),
        }
    }

    // What is answered at a line.
    fn answer(&mut self, line: &str) -> Result<String, Fail> {
        let alloc = self.alloc;
        let (word, rest) = cut(line, " ");
        match word {
            "setup" => self.hears(MsgBody::Setup(List::new(alloc))),
            "silent" => self.hears(MsgBody::ConfigResponse(List::new(alloc))),
            "code" => self.hears(response(alloc, rest.parse::<u8>()?)?),
            "held" => self.hears(held(alloc, rest.parse::<u32>()?)?),
            "begin" => {
                let (first, last) = cut(rest, "-");
                self.begin(first.parse::<u32>()?, last.parse::<u32>()?)
            }
            "plain" => self.plain(rest.parse::<u32>()?),
            "giveup" => self.give_up(),
            _ => self.forget(),
        }
    }
}

// The cases, each with a control element of its own; a line is what the element says or what is asked, and behind ` = ` how many messages are sent, or
// why it is refused.
const CASES: &str = "\
-- a stranger is told behind what is not ready or busy
begin 1-65 = toomany 65
begin 1-2 = notready 1
begin 9-9 = stranger 9
plain 9 = stranger 9
setup = 2
code 0 = 1
held 1025 = 0
plain 1 = 1
begin 1-2 = busy 1

-- a claim that is answered without a code leaves the element in doubt, and then its own epoch loses it
setup = 2
silent = 1
held 1025 = 0
forget = notready 1

-- an element in doubt about a change of a transaction is not ready, and lost by a lower epoch is not ready before it is unsettled
setup = 2
code 0 = 1
held 1025 = 0
begin 1-1 = 1
code 12 = 1
plain 1 = notready 1
begin 1-1 = notready 1
forget = unsettled
held 769 = 0
plain 1 = notready 1
begin 1-1 = notready 1
forget = notready 1

-- a control element that is deposed refuses for that first
setup = 2
code 0 = 1
held 1281 = 0
begin 1-65 = deposed 1281
begin 9-9 = deposed 1281
plain 9 = deposed 1281
giveup = deposed 1281
forget = deposed 1281";

// The first line of a case that is answered otherwise, with its answer.
fn first_wrong(alloc: Global, case: &str) -> Result<Option<String>, Fail> {
    let mut trial = Trial::new(alloc)?;
    for line in case.lines() {
        if !line.starts_with("--") {
            let (asked, wanted) = cut(line, " = ");
            let answer = trial.answer(asked)?;
            if answer.as_str() != wanted {
                return Ok(Some(format!(in alloc; "{line}: {answer}")?));
            }
        }
    }
    Ok(None)
}

#[test]
fn calls_are_refused_for_their_first_cause(rt: HostRuntime) -> Result<(), Fail> {
    for case in CASES.split("\n\n") {
        assert_eq!(rt; first_wrong(rt.alloc(), case)?, None);
    }
    Ok(())
}
