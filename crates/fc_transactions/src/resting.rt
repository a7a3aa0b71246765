// The operations that come with a start or a change of a transaction.
ghost use Rattle.std.specs.Prelude.{◌≡◌, ◌∷◌, IfOk, OnOk, OnErr, true};
ghost use Rattle.fc_machine.specs.ElementState as machine;
ghost use Rattle.fc_msg.specs.Messages.{IsProper};
ghost use Rattle.fc_msg.specs.declared.message.MsgBody.TheVariants.{Config};
ghost use Rattle.fc_path.specs.Results.{results_fit};
ghost use Rattle.fc_store.specs.Stores.{IsWhole, mark_of};
ghost use Rattle.fc_transactions.specs.Done.{IsAnswered};
ghost use Rattle.fc_transactions.specs.Phases.{marked, rest_outcome};

use crate::saying::answer_first;
use fc_base::{Code, Memory};
use fc_exec::exec_within;
use fc_modes::Mode;
use fc_msg::Message;
use fc_path::Select;
use fc_performing::Answered;
use fc_store::{Store, StoreMark};
use std::alloc::Global;

/// The operations of a rest, tried while a mark stands over their scope.
#[derive(Debug, Drop)]
pub struct Trial {
    /// The mark.
    pub mark: StoreMark,
    /// The first code that is not 00, or 00.
    pub code: Code,
    /// The response, where the first operation of the Config is accepted.
    pub answered: Answered,
}

// The first code that is not 00, or 00.
fn first_code(codes: &[Code]) -> Code
    ensures { result ≡ machine.first_code codes.now }
{
    for code in codes {
        if code.0 != 0 {
            return *code;
        }
    }
    Code::SUCCESS
}

// Marks the instances of a scope.
fn mark_scope(store: &mut Store, scope: &[(u32, u32)]) -> Result<StoreMark, Memory>
    ensures whole { IsWhole store.old }
    ensures ok { IfOk result (λ mark. mark ≡ mark_of scope.now store.old) }
    ensures marked { OnOk result (store.new ≡ marked scope.now store.old) }
    ensures err { OnErr result (store.new ≡ store.old) }
{
    let _instances = store.instances();
    store.mark_for(scope)
}

/// Does the operations of a rest, all or none, at the instances of a scope, over which a mark stands from then on. After an `Err` nothing
/// has changed.
pub fn attempt(
    alloc: Global,
    store: &mut Store,
    scope: &[(u32, u32)],
    peer: u32,
    request: &Message,
    selects: &[Select],
    rest: &[Select],
) -> Result<Trial, Memory>
    requires proper { IsProper request.now }
    requires body { request.now.body ≡ Config selects.now }
    requires fits { results_fit selects.now ≡ true }
    ensures whole { IsWhole store.old }
    ensures mark { IfOk result (λ a. a.mark ≡ mark_of scope.now store.old) }
    ensures code { IfOk result (λ a. a.code ≡ machine.first_code (rest_outcome scope.now (marked scope.now store.old) rest.now).codes) }
    ensures answered { IfOk result (λ a. IsAnswered peer request.now selects.now (0 ∷ (rest_outcome scope.now (marked scope.now store.old) rest.now).codes) a.answered) }
    ensures ok { OnOk result (store.new ≡ (rest_outcome scope.now (marked scope.now store.old) rest.now).state) }
    ensures err { OnErr result (store.new ≡ store.old) }
{
    let mark = mark_scope(store, scope)?;
    let codes = match exec_within(alloc, store, scope, rest, Mode::AllOrNone) {
        Ok(codes) => codes,
        Err(fault) => {
            store.rollback(mark);
            return Err(fault);
        }
    };
    let answered = answer_first(
        alloc,
        peer,
        request,
        selects,
        Code::SUCCESS,
        codes.as_slice(),
    );
    match answered {
        Ok(answered) => Ok(Trial {
            mark,
            code: first_code(codes.as_slice()),
            answered,
        }),
        Err(fault) => {
            store.rollback(mark);
            Err(fault)
        }
    }
}
