// The contents of the leaves of a query's selects, and the response with them.
ghost use Rattle.std.specs.Prelude.{◌≡◌, ◌<◌, ◌+◌, ◌-◌, ◌++◌, ◌∷◌, [], true, map, length, IfOk, OnOk, IfSome};
ghost use Rattle.std.specs.List.{fold, list_all};
ghost use Rattle.fc_path.specs.Canon.{joined};
ghost use Rattle.fc_path.specs.Results.{Sized, Held, results_fit};
ghost use Rattle.fc_ops.specs.Filling.{leaves_in_selects, selects_filled};
ghost use Rattle.fc_ops.specs.Answering.{answered, response_fits, is_queried};
ghost use Rattle.fc_ops.specs.Choosing.{going, spare, oper_part, select_part, through_oper, through_select};

use crate::choose::{TLV, choose_paths, narrower};
use crate::{Content, Offers, fill};
use fc_base::{List, Memory};
use fc_path::{Oper, Select, oper_size, select_size};
use std::alloc::Global;

// The greatest length of a message behind its header, in bytes.
const MESSAGE: usize = 262_116;

fn oper_spare(oper: &Oper) -> usize
    ensures { result ≡ spare 65535 (oper_part oper.now) }
{
    match oper_size(oper) {
        Some(size) => TLV - size,
        None => 0,
    }
}

fn select_spare(select: &Select) -> usize
    ensures { result ≡ spare 65535 (select_part select.now) }
{
    match select_size(select) {
        Some(size) => TLV - size,
        None => 0,
    }
}

// The bytes of the response of results alone, where they fit.
fn results_size(selects: &[Select]) -> Option<usize>
    ensures { Held 262117 result (joined (map select_part selects.now)) }
{
    let mut sum = 0usize;
    for select in selects {
        match select_size(select) {
            Some(size) => {
                if sum + size > MESSAGE {
                    return None;
                }
                sum += size;
            }
            None => return None,
        }
    }
    Some(sum)
}

fn choose_oper<O: Offers>(
    offers: &mut O,
    oper: &Oper,
    room: usize,
    chosen: &mut List<Content>,
) -> Result<usize, Memory>
    ensures { IfOk result (λ left. going chosen.new left (O.offered offers.new) ≡ through_oper oper.now (going chosen.old room (O.offered offers.old))) }
{
    match oper {
        Oper::Paths(_, paths) => {
            let spare = oper_spare(oper);
            let inner = narrower(spare, room);
            let left = choose_paths(offers, paths.as_slice(), inner, chosen)?;
            match left.checked_add(room - inner) {
                Some(whole) => Ok(whole),
                None => Err(Memory),
            }
        }
        Oper::Commit => Ok(room),
        Oper::Trcomp => Ok(room),
        Oper::CommitResponse(_) => Ok(room),
    }
}

fn choose_opers<O: Offers>(
    offers: &mut O,
    opers: &[Oper],
    room: usize,
    chosen: &mut List<Content>,
) -> Result<usize, Memory>
    ensures { IfOk result (λ left. going chosen.new left (O.offered offers.new) ≡ fold (λ now oper. through_oper oper now) (going chosen.old room (O.offered offers.old)) opers.now) }
{
    let mut left = room;
    for oper in opers {
        left = choose_oper(offers, oper, left, chosen)?;
    }
    Ok(left)
}

fn choose_select<O: Offers>(
    offers: &mut O,
    select: &Select,
    room: usize,
    chosen: &mut List<Content>,
) -> Result<usize, Memory>
    ensures { IfOk result (λ left. going chosen.new left (O.offered offers.new) ≡ through_select select.now (going chosen.old room (O.offered offers.old))) }
{
    let spare = select_spare(select);
    let inner = narrower(spare, room);
    let left = choose_opers(offers, select.opers.as_slice(), inner, chosen)?;
    match left.checked_add(room - inner) {
        Some(whole) => Ok(whole),
        None => Err(Memory),
    }
}

fn choose_selects<O: Offers>(
    offers: &mut O,
    selects: &[Select],
    room: usize,
    chosen: &mut List<Content>,
) -> Result<usize, Memory>
    ensures { IfOk result (λ left. going chosen.new left (O.offered offers.new) ≡ fold (λ now select. through_select select now) (going chosen.old room (O.offered offers.old)) selects.now) }
{
    let mut left = room;
    for select in selects {
        left = choose_select(offers, select, left, chosen)?;
    }
    Ok(left)
}

/// The contents of the leaves of a query's selects, in reading order: each one that is offered, where the response has room for it beside
/// those before it and a RESULT in each leaf after it, and else `CONTENTS_TOO_LONG`. Each content is asked for when its leaf is
/// reached, and let go at once where it has no room. It takes one walk over the selects.
pub fn answer_selects<O: Offers>(
    alloc: Global,
    offers: &mut O,
    selects: &[Select],
) -> Result<List<Content>, Memory>
    requires queried { list_all is_queried selects.now ≡ true }
    requires fits { results_fit selects.now ≡ true }
    requires count { length (O.offered offers.old) ≡ leaves_in_selects selects.now }
    ensures { IfOk result (λ contents. contents ≡ answered (response_fits selects.now) (O.offered offers.old)) }
{
    let mut contents = List::new(alloc);
    match results_size(selects) {
        Some(size) => {
            let _left = choose_selects(offers, selects, MESSAGE - size, &mut contents)?;
            Ok(contents)
        }
        None => Ok(contents),
    }
}

/// The response to a query, with the contents of [`answer_selects`] in its leaves.
pub fn answer_query<O: Offers>(
    alloc: Global,
    offers: &mut O,
    selects: &[Select],
) -> Result<List<Select>, Memory>
    requires queried { list_all is_queried selects.now ≡ true }
    requires fits { results_fit selects.now ≡ true }
    requires count { length (O.offered offers.old) ≡ leaves_in_selects selects.now }
    ensures { IfOk result (λ response. response ≡ (selects_filled selects.now (answered (response_fits selects.now) (O.offered offers.old))).0) }
{
    let contents = answer_selects(alloc, offers, selects)?;
    fill(alloc, selects, contents.as_slice())
}
