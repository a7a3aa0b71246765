// How many bytes are written, without writing them.
ghost use Rattle.std.specs.Prelude.{◌≡◌, ◌<◌, map, IfSome};
ghost use Rattle.fc_path.specs.Canon.{joined, body_written, full_written, ilv_written, path_written, oper_written, select_written, sparse_written};
ghost use Rattle.fc_path.specs.Results.{Sized, Held};

use crate::results::{VALUE, key_size};
use crate::{Body, Oper, PathData, Select};
use fc_base::Octets;
use fc_wire::Ilv;

// The most bytes of an ILV's value.
const ILV_VALUE: usize = 4294967287;

// The bytes of a FULLDATA.
fn full_size(value: &Octets) -> Option<usize>
    ensures { Held 65532 result (full_written value.now) }
{
    let len = value.len();
    if len > VALUE {
        return None;
    }
    let size = 4 + (len + 3) / 4 * 4;
    if size > VALUE { None } else { Some(size) }
}

fn ilv_size(ilv: &Ilv) -> Option<usize>
    ensures size { Sized result (ilv_written ilv.now) }
    ensures small { IfSome result (λ n. n < 4294967300) }
{
    let len = ilv.value.len();
    if len > ILV_VALUE {
        None
    } else {
        Some(8 + (len + 3) / 4 * 4)
    }
}

fn ilvs_size(ilvs: &[Ilv]) -> Option<usize>
    ensures { Held 65532 result (joined (map ilv_written ilvs.now)) }
{
    let mut sum = 0usize;
    for ilv in ilvs {
        match ilv_size(ilv) {
            Some(size) => {
                if sum + size > VALUE {
                    return None;
                }
                sum += size;
            }
            None => return None,
        }
    }
    Some(sum)
}

// The bytes of a SPARSEDATA.
fn sparse_size(ilvs: &[Ilv]) -> Option<usize>
    ensures { Held 65532 result (sparse_written ilvs.now) }
{
    match ilvs_size(ilvs) {
        Some(size) => {
            if size + 4 > VALUE {
                None
            } else {
                Some(size + 4)
            }
        }
        None => None,
    }
}

// The bytes of a PATH-DATA; none exactly where a length in it does not fit its field.
#[cycle(measure)]
fn written_path(path: &PathData) -> Option<usize>
    ensures size { Sized result (path_written path.now) }
    ensures small { IfSome result (λ n. n < 65536) }
{
    let count = path.ids.len();
    if count > VALUE {
        return None;
    }
    let key = match key_size(&path.key) {
        Some(size) => size,
        None => return None,
    };
    let body = match written_body(&path.body) {
        Some(size) => size,
        None => return None,
    };
    let size = 4 + 4 * count + key + body;
    if size > VALUE { None } else { Some(size + 4) }
}

#[cycle(measure)]
fn written_body(body: &Body) -> Option<usize>
    ensures { Held 65532 result (body_written body.now) }
{
    match body {
        Body::Nothing => Some(0),
        Body::Full(value) => full_size(value),
        Body::Sparse(ilvs) => sparse_size(ilvs.as_slice()),
        Body::Outcome(_) => Some(8),
        Body::Nested(paths) => written_paths(paths.as_slice()),
    }
}

#[cycle(measure)]
fn written_paths(paths: &[PathData]) -> Option<usize>
    ensures { Held 65532 result (joined (map path_written paths.now)) }
{
    let mut sum = 0usize;
    for path in paths {
        match written_path(path) {
            Some(size) => {
                if sum + size > VALUE {
                    return None;
                }
                sum += size;
            }
            None => return None,
        }
    }
    Some(sum)
}

// The bytes of an operation; none exactly where a length in it does not fit its field.
fn written_oper(oper: &Oper) -> Option<usize>
    ensures size { Sized result (oper_written oper.now) }
    ensures small { IfSome result (λ n. n < 65536) }
{
    match oper {
        Oper::Paths(_, paths) => match written_paths(paths.as_slice()) {
            Some(size) => Some(size + 4),
            None => None,
        },
        Oper::Commit => Some(4),
        Oper::Trcomp => Some(4),
        Oper::CommitResponse(_) => Some(12),
    }
}

fn written_opers(opers: &[Oper]) -> Option<usize>
    ensures { Held 65524 result (joined (map oper_written opers.now)) }
{
    let mut sum = 0usize;
    for oper in opers {
        match written_oper(oper) {
            Some(size) => {
                if sum + size > VALUE - 8 {
                    return None;
                }
                sum += size;
            }
            None => return None,
        }
    }
    Some(sum)
}

/// The bytes of a select, with its header; none exactly where a length in it does not fit its field.
pub fn written_select(select: &Select) -> Option<usize>
    ensures size { Sized result (select_written select.now) }
    ensures small { IfSome result (λ n. n < 65536) }
{
    match written_opers(select.opers.as_slice()) {
        Some(size) => Some(size + 12),
        None => None,
    }
}
