// As many records as an element may have.
use crate::fence::epoch;
use fc_base::{Code, List, OpFault, TxnId};
use fc_tx::Records;
use std::alloc::Global;
use std::test::Fail;

fn transaction(number: u32) -> Result<TxnId, Fail> {
    Ok(TxnId::of(epoch(257)?, number).ok_or("a transaction")?)
}

// Whether a transaction that has no record is entered as aborted, or there is no room for it.
fn is_entered(records: &mut Records, number: u32) -> Result<bool, Fail> {
    let txn = transaction(number)?;
    if records.state_of(txn).is_some() {
        return Err(Fail::from("a record"));
    }
    match records.abort_unknown(txn) {
        Ok(()) => Ok(true),
        Err(OpFault::Refused(Code::VALUE_OUT_OF_RANGE)) => Ok(false),
        Err(_) => Err(Fail::from("another refusal")),
    }
}

// Whether one is started that may change all instances, or there is no room for it.
fn is_started(alloc: Global, records: &mut Records, number: u32) -> Result<bool, Fail> {
    match records.start(transaction(number)?, List::new(alloc), List::new(alloc)) {
        Ok(()) => Ok(true),
        Err(OpFault::Refused(Code::VALUE_OUT_OF_RANGE)) => Ok(false),
        Err(_) => Err(Fail::from("another refusal")),
    }
}

#[test]
fn full_records_take_nothing_more(rt: HostRuntime) -> Result<(), Fail> {
    let mut records = Records::new(rt.alloc());
    for number in 1..4097u32 {
        assert!(rt; is_entered(&mut records, number)?);
    }
    assert_eq!(rt; records.len(), Records::MOST);
    assert!(rt; !is_entered(&mut records, 5000)?);
    assert!(rt; !is_started(rt.alloc(), &mut records, 5000)?);
    assert_eq!(rt; records.len(), Records::MOST);
    Ok(())
}
