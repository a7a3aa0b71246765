// All messages that were ever sent.
ghost use Rattle.std.specs.Prelude.{◌≡◌, ◌<◌, ◌≤◌, ◌-◌, min, length, slice_get, option_map, IfOk};
ghost use Rattle.std.specs.List.{HoldsAt};
ghost use Rattle.fc_world.specs.declared.sent.Batch.{Batch};
ghost use Rattle.fc_world.specs.Stages.{AreCounted, all_parcels, most, parcel_at, parcels_in};
ghost use Rattle.fc_world.specs.Lookups.{parcel_in};
ghost use Rattle.fc_world.specs.Worlds.{message_of};
ghost use Rattle.fc_world.specs.declared.sent.Outs.TheVariants.{OfElement, OfController};

use fc_base::{Duplicate, FeId, List, Memory};
use fc_element::Out;
use fc_master::CeOut;
use fc_msg::Message;

/// A message with its sender and its addressee. A control element stands by its number.
#[derive(Debug, Drop)]
pub enum Parcel {
    /// From an element to a control element.
    Upward(FeId, u32, Message),
    /// From a control element to an element.
    Downward(u32, FeId, Message),
}

/// What one sender sent in one step, in this order.
#[derive(Debug, Drop)]
pub enum Outs {
    OfElement(FeId, List<Out>),
    OfController(u32, List<CeOut>),
}

/// The same, with how many messages were sent before.
#[derive(Debug, Drop)]
pub struct Batch {
    pub before: usize,
    pub outs: Outs,
}

impl Outs {
    // How many messages there are.
    fn len(&self) -> usize
        ensures { result ≡ length (parcels_in self.now) }
    {
        match self {
            Outs::OfElement(_, outs) => outs.len(),
            Outs::OfController(_, outs) => outs.len(),
        }
    }

    // The message at a place, from 0.
    fn message(&self, place: usize) -> Option<&Message>
        ensures { option_map (λ m. m.now) result ≡ option_map message_of (slice_get (parcels_in self.now) place) }
    {
        match self {
            Outs::OfElement(_, outs) => message_in(outs.as_slice(), place),
            Outs::OfController(_, outs) => ce_message_in(outs.as_slice(), place),
        }
    }

    // The same with its sender and its addressee.
    fn parcel(&self, place: usize) -> Result<Option<Parcel>, Memory>
        ensures { IfOk result (λ parcel. parcel ≡ slice_get (parcels_in self.now) place) }
    {
        match self {
            Outs::OfElement(from, outs) => upward(*from, outs.as_slice(), place),
            Outs::OfController(number, outs) => downward(*number, outs.as_slice(), place),
        }
    }
}

fn message_in(outs: &[Out], place: usize) -> Option<&Message>
    ensures { option_map (λ m. m.now) result ≡ option_map (λ o. o.message) (slice_get outs.now place) }
{
    let out = outs.get(place)?;
    Some(&out.message)
}

fn ce_message_in(outs: &[CeOut], place: usize) -> Option<&Message>
    ensures { option_map (λ m. m.now) result ≡ option_map (λ o. o.message) (slice_get outs.now place) }
{
    let out = outs.get(place)?;
    Some(&out.message)
}

fn upward(from: FeId, outs: &[Out], place: usize) -> Result<Option<Parcel>, Memory>
    ensures { IfOk result (λ parcel. parcel ≡ slice_get (parcels_in (OfElement from outs.now)) place) }
{
    match outs.get(place) {
        None => Ok(None),
        Some(out) => Ok(Some(Parcel::Upward(from, out.peer, out.message.copy()?))),
    }
}

fn downward(number: u32, outs: &[CeOut], place: usize) -> Result<Option<Parcel>, Memory>
    ensures { IfOk result (λ parcel. parcel ≡ slice_get (parcels_in (OfController number outs.now)) place) }
{
    match outs.get(place) {
        None => Ok(None),
        Some(out) => Ok(Some(Parcel::Downward(number, out.to, out.message.copy()?))),
    }
}

/// How many messages there are in all.
pub fn count(batches: &[Batch]) -> usize
    ensures { AreCounted 0 batches.now → result ≡ min (length (all_parcels batches.now)) most }
{
    match batches.last() {
        None => 0,
        Some(last) => last.before.saturating_add(last.outs.len()),
    }
}

// How many batches at the end stand near it.
const NEAR: usize = 32;

// How many batches begin at this place or before it, where those in front of the first bound do, and those from the second one on do not.
fn begun_between(place: usize, batches: &[Batch], from: usize, to: usize) -> usize
    requires ordered { from ≤ to }
    requires within { to ≤ length batches.now }
    requires begun { 0 < from → HoldsAt (λ (b : Batch). b.before ≤ place) batches.now (from - 1) }
    requires later { to < length batches.now → HoldsAt (λ (b : Batch). place < b.before) batches.now to }
    ensures within { result ≤ length batches.now }
    ensures begun { 0 < result → HoldsAt (λ (b : Batch). b.before ≤ place) batches.now (result - 1) }
    ensures later { result < length batches.now → HoldsAt (λ (b : Batch). place < b.before) batches.now result }
{
    let mut low = from;
    let mut high = to;
    while low < high {
        let middle = low + (high - low) / 2;
        if batches[middle].before <= place {
            low = middle + 1;
        } else {
            high = middle;
        }
    }
    low
}

// How many batches begin at this place or before it; they are in front of the others. What is asked for was, as a rule, sent a short
// while ago: so the last batch is looked at first, and then those near the end apart from the others.
fn begun_at(place: usize, batches: &[Batch]) -> usize
    ensures within { result ≤ length batches.now }
    ensures begun { 0 < result → HoldsAt (λ (b : Batch). b.before ≤ place) batches.now (result - 1) }
    ensures later { result < length batches.now → HoldsAt (λ (b : Batch). place < b.before) batches.now result }
{
    if let Some(last) = batches.last() {
        if last.before <= place {
            return batches.len();
        }
    }
    let len = batches.len();
    match len.checked_sub(NEAR) {
        None => begun_between(place, batches, 0, len),
        Some(near) => {
            if batches[near].before <= place {
                begun_between(place, batches, near + 1, len)
            } else {
                begun_between(place, batches, 0, near)
            }
        }
    }
}

// The batch in which the message of this number stands, counted from 1, and its place there.
fn found(number: usize, batches: &[Batch]) -> Option<(&Batch, usize)>
    ensures { AreCounted 0 batches.now → parcel_in number (all_parcels batches.now) ≡ parcel_at (option_map (λ p. (p.0.now, p.1)) result) }
{
    let place = number.checked_sub(1)?;
    let begun = begun_at(place, batches);
    if begun == 0 {
        return None;
    }
    let batch = batches.get(begun - 1)?;
    Some((batch, place.saturating_sub(batch.before)))
}

/// The message of this number, counted from 1.
pub fn message_numbered(number: usize, batches: &[Batch]) -> Option<&Message>
    ensures { AreCounted 0 batches.now → option_map (λ m. m.now) result ≡ option_map message_of (parcel_in number (all_parcels batches.now)) }
{
    let (batch, place) = found(number, batches)?;
    batch.outs.message(place)
}

/// The same with its sender and its addressee.
pub fn parcel_numbered(number: usize, batches: &[Batch]) -> Result<Option<Parcel>, Memory>
    ensures { AreCounted 0 batches.now → IfOk result (λ parcel. parcel ≡ parcel_in number (all_parcels batches.now)) }
{
    match found(number, batches) {
        None => Ok(None),
        Some((batch, place)) => batch.outs.parcel(place),
    }
}
