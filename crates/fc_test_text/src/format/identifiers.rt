// The ranges of identifiers and the names of result codes.
use fc_base::{CeId, Code, Epoch, FeId, TxnId};
use std::test::Fail;

#[test]
fn identifiers_have_their_ranges(rt: HostRuntime) -> Result<(), Fail> {
    for (n, is_element, is_controller) in [
        (0u32, false, false),
        (1, true, false),
        (0x3fff_ffff, true, false),
        (0x4000_0000, false, false),
        (0x4000_0001, false, true),
        (0x7fff_ff00, false, false),
        (0x7fff_ffff, false, true),
        (0x8000_0001, false, false),
        (0xffff_fffd, false, false),
    ] {
        assert_eq!(rt; FeId::of(n).is_some(), is_element, "{n}");
        assert_eq!(rt; CeId::of(n).is_some(), is_controller, "{n}");
    }
    Ok(())
}

// The controller 1.
fn controller() -> Result<CeId, Fail> {
    match CeId::of(0x4000_0001) {
        Some(ce) => Ok(ce),
        None => Err(Fail::from("no controller")),
    }
}

// The word of the epoch of a round.
fn word_of(round: u32, ce: CeId) -> Option<u32> {
    match Epoch::of(round, ce) {
        Some(epoch) => Some(epoch.get()),
        None => None,
    }
}

#[test]
fn epochs_are_of_a_round_and_a_controller(rt: HostRuntime) -> Result<(), Fail> {
    let ce = controller()?;
    assert_eq!(rt; ce.number(), 1);
    for (round, word) in [(0, None), (1, Some(257)), (16_777_216, None)] {
        assert_eq!(rt; word_of(round, ce), word, "{round}");
    }
    Ok(())
}

#[test]
fn epochs_are_of_words(rt: HostRuntime) -> Result<(), Fail> {
    let first = Epoch::of(1, controller()?);
    for (word, epoch) in [(255, None), (256, None), (257, first)] {
        assert_eq!(rt; Epoch::from_word(word), epoch, "{word}");
    }
    assert!(rt; first.is_some());
    Ok(())
}

// The epoch of a word.
fn epoch(word: u32) -> Result<Epoch, Fail> {
    match Epoch::from_word(word) {
        Some(epoch) => Ok(epoch),
        None => Err(Fail::from("no epoch")),
    }
}

// The number of the transaction of an epoch and a number.
fn number_of(epoch: Epoch, number: u32) -> Option<u32> {
    match TxnId::of(epoch, number) {
        Some(txn) => Some(txn.number),
        None => None,
    }
}

#[test]
fn transactions_are_of_an_epoch_and_a_number(rt: HostRuntime) -> Result<(), Fail> {
    let epoch = epoch(257)?;
    for (number, told) in [(0, None), (4, Some(4))] {
        assert_eq!(rt; number_of(epoch, number), told);
    }
    Ok(())
}

#[test]
fn codes_have_names(rt: HostRuntime) -> Result<(), Fail> {
    for (code, name) in [
        (Code::SUCCESS, Some("SUCCESS")),
        (Code::INVALID_PATH, Some("INVALID_PATH")),
        (Code::INVALID_TLV, Some("INVALID_TLV")),
        (Code::UNSPECIFIED_ERROR, Some("UNSPECIFIED_ERROR")),
        (Code(0x11), None),
    ] {
        assert_eq!(rt; code.name(), name);
    }
    Ok(())
}

// The transaction of the last epoch with this number.
fn last_transaction(number: u32) -> Result<TxnId, Fail> {
    match TxnId::of(epoch(0xffff_ffff)?, number) {
        Some(txn) => Ok(txn),
        None => Err(Fail::from("no transaction")),
    }
}

#[test]
fn transactions_print_their_epoch_and_number(rt: HostRuntime) -> Result<(), Fail> {
    let txn = last_transaction(4)?;
    let text = format!(in rt.alloc(); "{txn}")?;
    assert_eq!(rt; text.as_str(), "4294967295.4");
    Ok(())
}
