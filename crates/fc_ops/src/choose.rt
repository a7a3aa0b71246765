// The contents of the leaves of PATH-DATA, chosen in one walk.
ghost use Rattle.std.specs.Prelude.{◌≡◌, ◌+◌, ◌-◌, ◌≤◌, ◌++◌, ◌∷◌, [], true, map, IfOk, OnOk, IfSome, is_some, length};
ghost use Rattle.std.specs.List.{fold};
ghost use Rattle.fc_path.specs.Canon.{path_written};
ghost use Rattle.fc_path.specs.Results.{path_results};
ghost use Rattle.fc_ops.specs.Filling.{content_written};
ghost use Rattle.fc_ops.specs.Choosing.{going, spare, small, gone, narrowed, leaf_walk, through_body, through_path};

use crate::{Content, Offers, content_size};
use fc_base::{Code, List, Memory};
use fc_path::{Body, PathData, path_size};
use std::alloc::Global;

// The greatest length of a TLV, in bytes.
pub(crate) const TLV: usize = 65_535;
// The bytes of a RESULT, in the place of which a content stands.
const RESULT: usize = 8;

// By how many bytes a PATH-DATA of results may grow, which is none where a length in it does not fit.
fn path_spare(path: &PathData) -> usize
    ensures { result ≡ spare 65535 (path_written (path_results path.now)) }
{
    match path_size(path) {
        Some(size) => TLV - size,
        None => 0,
    }
}

// The room in a container that may itself grow by so many bytes.
pub(crate) fn narrower(spare: usize, room: usize) -> usize
    ensures room { result ≡ narrowed spare room }
    ensures less { result ≤ room }
{
    if spare < room { spare } else { room }
}

// What room is left where a content stands in the place of a RESULT, or none where it has no room.
fn room_behind(content: &Content, room: usize) -> Result<Option<usize>, Memory>
    ensures none { IfOk result (λ left. is_some left ≡ small (content_written content.now) (room + 8)) }
    ensures some { IfOk result (λ left. IfSome left (λ n. n ≡ room + 8 - length (content_written content.now).text)) }
{
    match content_size(content) {
        None => Ok(None),
        Some(size) => {
            if size < RESULT {
                match room.checked_add(RESULT - size) {
                    Some(left) => Ok(Some(left)),
                    None => Err(Memory),
                }
            } else if size - RESULT > room {
                Ok(None)
            } else {
                Ok(Some(room - (size - RESULT)))
            }
        }
    }
}

// Chooses the content of the next leaf.
fn choose_leaf<O: Offers>(
    offers: &mut O,
    room: usize,
    chosen: &mut List<Content>,
) -> Result<usize, Memory>
    ensures { IfOk result (λ left. going chosen.new left (O.offered offers.new) ≡ leaf_walk (going chosen.old room (O.offered offers.old))) }
{
    let content = offers.next()?;
    match room_behind(&content, room)? {
        Some(left) => {
            chosen.push(content)?;
            Ok(left)
        }
        None => {
            chosen.push(Content::Refused(Code::CONTENTS_TOO_LONG))?;
            Ok(room)
        }
    }
}

// Appends the contents of the leaves of a PATH-DATA, which may grow by `room` bytes together with what it stands in, and gives what
// room is left then. A content that is shorter than a RESULT makes room.
#[cycle(choose)]
fn choose_path<O: Offers>(
    offers: &mut O,
    path: &PathData,
    room: usize,
    chosen: &mut List<Content>,
) -> Result<usize, Memory>
    ensures { IfOk result (λ left. going chosen.new left (O.offered offers.new) ≡ through_path path.now (going chosen.old room (O.offered offers.old))) }
{
    let spare = path_spare(path);
    let inner = narrower(spare, room);
    let left = choose_body(offers, &path.body, inner, chosen)?;
    match left.checked_add(room - inner) {
        Some(whole) => Ok(whole),
        None => Err(Memory),
    }
}

#[cycle(choose)]
fn choose_body<O: Offers>(
    offers: &mut O,
    body: &Body,
    room: usize,
    chosen: &mut List<Content>,
) -> Result<usize, Memory>
    ensures { IfOk result (λ left. going chosen.new left (O.offered offers.new) ≡ through_body body.now (going chosen.old room (O.offered offers.old))) }
{
    match body {
        Body::Nested(paths) => choose_paths(offers, paths.as_slice(), room, chosen),
        Body::Nothing => choose_leaf(offers, room, chosen),
        Body::Full(_) => choose_leaf(offers, room, chosen),
        Body::Sparse(_) => choose_leaf(offers, room, chosen),
        Body::Outcome(_) => choose_leaf(offers, room, chosen),
    }
}

#[cycle(choose)]
pub(crate) fn choose_paths<O: Offers>(
    offers: &mut O,
    paths: &[PathData],
    room: usize,
    chosen: &mut List<Content>,
) -> Result<usize, Memory>
    ensures { IfOk result (λ left. going chosen.new left (O.offered offers.new) ≡ fold (λ now path. through_path path now) (going chosen.old room (O.offered offers.old)) paths.now) }
{
    let mut left = room;
    for path in paths {
        left = choose_path(offers, path, left, chosen)?;
    }
    Ok(left)
}
