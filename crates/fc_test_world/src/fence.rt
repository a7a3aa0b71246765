// The worked values of the fence.
use fc_base::{CeId, Epoch};
use fc_protocol::Verdict;
use fc_tx::Fence;
use std::test::Fail;

// The epoch that a word is.
pub(crate) fn epoch(word: u32) -> Result<Epoch, Fail> {
    Ok(Epoch::from_word(word).ok_or("an epoch")?)
}

// How a fence of epoch 258 with this sequence judges a Config of this correlator, which claims by this word, from the control element of this number.
fn judged(sequence: u32, number: u32, corr: u64, word: Option<u32>) -> Result<Verdict, Fail> {
    let ce = CeId::of(0x4000_0000 + number % 256).ok_or("a control element")?;
    let fence = Fence {
        epoch: 258,
        master: 0x4000_0002,
        sequence,
    };
    Ok(fence.judge(ce, corr, word))
}

#[test]
fn a_fence_counts_and_lets_greater_claims_pass(rt: HostRuntime) -> Result<(), Fail> {
    for (count, wanted) in [
        (4u32, Verdict::Next),
        (3, Verdict::Again),
        (5, Verdict::Gap),
    ] {
        let corr = 258 * 4_294_967_296 + u64::from(count);
        assert_eq!(rt; judged(3, 2, corr, None)?, wanted, "{count}");
    }
    for (sequence, number, word, wanted) in [
        (3, 1, 513u32, Verdict::Claim(epoch(513)?)),
        (3, 1, 4_294_967_041, Verdict::Claim(epoch(4_294_967_041)?)),
        (3, 1, 257, Verdict::Stale),
        (3, 1, 514, Verdict::Stale),
        (3, 2, 258, Verdict::Gap),
        (0, 2, 258, Verdict::Again),
    ] {
        let corr = u64::from(word) * 4_294_967_296;
        assert_eq!(rt;
            judged(sequence, number, corr, Some(word))?,
            wanted,
            "{sequence} {word}"
        );
    }
    Ok(())
}
