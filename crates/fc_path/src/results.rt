// Whether the response of results alone fits its length fields.
ghost use Rattle.std.specs.Prelude.{◌≡◌, ◌<◌, map, IfSome};
ghost use Rattle.std.specs.List.{flat_map};
ghost use Rattle.fc_path.specs.Canon.{joined, key_written, body_written, path_written, oper_written, select_written};
ghost use Rattle.fc_path.specs.Results.{Sized, Held, path_results, body_results, oper_results, select_results, results_fit};

use crate::{Body, Key, Oper, PathData, Select};

// The most bytes of a TLV's value, and the most bytes of a message behind its header.
pub(crate) const VALUE: usize = 65531;

const MESSAGE: usize = 262116;

// The bytes of the KEYINFO of a key.
pub(crate) fn key_size(key: &Option<Key>) -> Option<usize>
    ensures size { Sized result (key_written key.now) }
    ensures small { IfSome result (λ n. n < 65536) }
{
    match key {
        None => Some(0),
        Some(key) => {
            let len = key.value.len();
            if len > VALUE {
                return None;
            }
            let size = 4 + (4 + (len + 3) / 4 * 4);
            if size > VALUE { None } else { Some(size + 4) }
        }
    }
}

/// The bytes of the PATH-DATA that answers one with results alone, a RESULT in each leaf; none exactly where a length in it does not fit
/// its field.
#[cycle(size)]
pub fn path_size(path: &PathData) -> Option<usize>
    ensures size { Sized result (path_written (path_results path.now)) }
    ensures small { IfSome result (λ n. n < 65536) }
{
    let count = path.ids.len();
    if count > VALUE {
        return None;
    }
    let key = match key_size(&path.key) {
        Some(size) => size,
        None => return None,
    };
    let body = match body_size(&path.body) {
        Some(size) => size,
        None => return None,
    };
    let size = 4 + 4 * count + key + body;
    if size > VALUE { None } else { Some(size + 4) }
}

#[cycle(size)]
fn body_size(body: &Body) -> Option<usize>
    ensures { Held 65532 result (body_written (body_results body.now)) }
{
    match body {
        Body::Nothing => Some(8),
        Body::Full(_) => Some(8),
        Body::Sparse(_) => Some(8),
        Body::Outcome(_) => Some(8),
        Body::Nested(paths) => paths_size(paths.as_slice()),
    }
}

#[cycle(size)]
fn paths_size(paths: &[PathData]) -> Option<usize>
    ensures { Held 65532 result (joined (map (λ p. path_written (path_results p)) paths.now)) }
{
    let mut sum = 0usize;
    for path in paths {
        match path_size(path) {
            Some(size) => {
                if sum + size > VALUE {
                    return None;
                }
                sum += size;
            }
            None => return None,
        }
    }
    Some(sum)
}

/// The bytes of the operation that answers one with results alone, with its header, and 0 where no operation answers it; none exactly
/// where a length in it does not fit its field.
pub fn oper_size(oper: &Oper) -> Option<usize>
    ensures size { Sized result (joined (map oper_written (oper_results oper.now))) }
    ensures small { IfSome result (λ n. n < 65536) }
{
    match oper {
        Oper::Paths(_, paths) => match paths_size(paths.as_slice()) {
            Some(size) => Some(size + 4),
            None => None,
        },
        Oper::Commit => Some(12),
        Oper::Trcomp => Some(0),
        Oper::CommitResponse(_) => Some(0),
    }
}

fn opers_size(opers: &[Oper]) -> Option<usize>
    ensures { Held 65532 result (joined (map (λ o. joined (map oper_written (oper_results o))) opers.now)) }
{
    let mut sum = 0usize;
    for oper in opers {
        match oper_size(oper) {
            Some(size) => {
                if sum + size > VALUE {
                    return None;
                }
                sum += size;
            }
            None => return None,
        }
    }
    Some(sum)
}

/// The bytes of the select that answers one with results alone, with its header, and 0 where no operation of it is answered; none exactly
/// where a length in it does not fit its field.
pub fn select_size(select: &Select) -> Option<usize>
    ensures size { Sized result (joined (map select_written (select_results select.now))) }
    ensures small { IfSome result (λ n. n < 65536) }
{
    match opers_size(select.opers.as_slice()) {
        None => None,
        Some(0) => Some(0),
        Some(size) => {
            if size + 8 > VALUE {
                None
            } else {
                Some(size + 12)
            }
        }
    }
}

/// Whether the response of results alone to the selects of a Config or a Query passes no length field.
pub fn fits_results(selects: &[Select]) -> bool
    ensures exact { result ≡ results_fit selects.now }
{
    let mut sum = 0usize;
    for select in selects {
        match select_size(select) {
            Some(size) => {
                if sum + size > MESSAGE {
                    return false;
                }
                sum += size;
            }
            None => return false,
        }
    }
    true
}
