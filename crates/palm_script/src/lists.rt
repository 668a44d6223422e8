//! Lists of calls, done one after another.

ghost use Rattle.std.specs.Prelude.{[], ◌≡◌, All, IfErr, IfOk, OnErr};
ghost use Rattle.heap_model.specs.Runs.{Run};
ghost use Rattle.heap_model.specs.declared.call.Reply.{Reply};
ghost use Rattle.heap_model.specs.declared.refusal.Refusal.{Refusal};
ghost use Rattle.palm_script.specs.Headline.{AnswersAsRun, HandsBack, WantsMemory};
ghost use Rattle.palm_script.specs.Loans.{LoanStays, RunsOnLoan};
ghost use Rattle.allowance.specs.Refusals.{GrowthRefused};

use crate::calls::do_call_from;
use allowance::{Allowance, room_for};
use heap_model::{Call, Reply};
use palm_store::{NotAStore, Store};
use raw_region::Region;
use std::alloc::Global;
use std::fmt;
use thiserror::Error;

/// The allocation for the replies failed, and no call was done.
#[derive(Clone, Copy, Debug, PartialEq, Eq, Error)]
#[error("OutOfMemory")]
pub struct OutOfMemory;

/// Does the calls of a list, and returns the reply to each. A call that is refused doesn't end the
/// run.
///
/// A loan may be out. It stays out, and only its holder has its bytes.
///
/// It allocates room for all replies before the first call. After that only `read`, `import` and
/// `export` take memory. If an allocation of a call fails, the call is refused with `OutOfMemory`.
///
/// # Errors
/// - `OutOfMemory`: if the allocation for the replies failed. Then no call was done.
pub fn run_calls(
    alloc: Global,
    store: &mut Store,
    calls: &[Call],
) -> Result<Vec<Reply>, OutOfMemory>
    ensures run { IfOk result (λ replies. Run store.old calls.now replies.items store.new) }
    ensures loan { IfOk result (λ replies. RunsOnLoan store.old calls.now replies.items store.new) }
    ensures stays { LoanStays store.old store.new }
    ensures none_done { OnErr result (store.new ≡ store.old) }
    ensures short { OnErr result GrowthRefused }
    ensures no_memory { IfOk result (λ replies. All
        (λ reply. reply ≡ Reply.Refused Refusal.OutOfMemory → GrowthRefused) replies.items) }
{
    run_calls_from(&alloc, store, calls)
}

/// The same as `run_calls`, with a grant of `memory` for each allocation. The list and each of its
/// calls report `OutOfMemory` only if an allocation failed.
pub fn run_calls_from<A: Allowance>(
    memory: &A,
    store: &mut Store,
    calls: &[Call],
) -> Result<Vec<Reply>, OutOfMemory>
    ensures run { IfOk result (λ replies. Run store.old calls.now replies.items store.new) }
    ensures loan { IfOk result (λ replies. RunsOnLoan store.old calls.now replies.items store.new) }
    ensures stays { LoanStays store.old store.new }
    ensures none_done { OnErr result (store.new ≡ store.old) }
    ensures short { OnErr result (A.is_short memory.now) }
    ensures no_memory { IfOk result (λ replies. All
        (λ reply. reply ≡ Reply.Refused Refusal.OutOfMemory → A.is_short memory.now) replies.items) }
{
    let Ok(mut replies) = room_for(memory, calls.len()) else {
        return Err(OutOfMemory);
    };
    for call in calls {
        replies.push_reserved(do_call_from(memory, store, call));
    }
    Ok(replies)
}

/// Why the calls of a list weren't done.
#[derive(Drop, Error)]
pub enum NotRun {
    /// The region is no accepted image, or an allocation of its check failed.
    #[error("{0}")]
    NotAStore(NotAStore),
    /// The allocation for the replies failed.
    #[error("OutOfMemory")]
    OutOfMemory(Store),
}

impl fmt::Debug for NotRun {
    fn fmt<W: fmt::Write>(&self, f: &mut fmt::Formatter<W>) -> fmt::Result {
        match self {
            NotRun::NotAStore(error) => f.debug_tuple("NotAStore").field(error).finish(),
            NotRun::OutOfMemory(_) => f.debug_tuple("OutOfMemory").finish(),
        }
    }
}

/// Checks an image, and runs a list of calls from it. Its contract is the purpose of the library.
///
/// # Errors
/// - `NotAStore`: if the region is no accepted image, or an allocation of its check failed.
/// - `OutOfMemory`: if the allocation for the replies failed.
pub fn check_and_run(
    alloc: Global,
    region: Region,
    calls: &[Call],
) -> Result<(Store, Vec<Reply>), NotRun>
    requires { region.lents ≡ [] }
    ensures run { IfOk result (λ done. AnswersAsRun region calls.now done.1.items done.0) }
    ensures whole { IfOk result (λ done. done.0.lents ≡ []) }
    ensures not_run { IfErr result (HandsBack region) }
    ensures short { IfErr result (λ error. WantsMemory error → GrowthRefused) }
    ensures no_memory { IfOk result (λ done. All (λ reply.
        reply ≡ Reply.Refused Refusal.OutOfMemory → GrowthRefused) done.1.items) }
{
    check_and_run_from(&alloc, region, calls)
}

/// The same as `check_and_run`, with a grant of `memory` for each allocation. The check, the list
/// and each of its calls report `OutOfMemory` only if an allocation failed.
pub fn check_and_run_from<A: Allowance>(
    memory: &A,
    region: Region,
    calls: &[Call],
) -> Result<(Store, Vec<Reply>), NotRun>
    requires { region.lents ≡ [] }
    ensures run { IfOk result (λ done. AnswersAsRun region calls.now done.1.items done.0) }
    ensures whole { IfOk result (λ done. done.0.lents ≡ []) }
    ensures not_run { IfErr result (HandsBack region) }
    ensures short { IfErr result (λ error. WantsMemory error → A.is_short memory.now) }
    ensures no_memory { IfOk result (λ done. All (λ reply.
        reply ≡ Reply.Refused Refusal.OutOfMemory → A.is_short memory.now) done.1.items) }
{
    let mut store = match Store::check_from(memory, region) {
        Ok(store) => store,
        Err(error) => return Err(NotRun::NotAStore(error)),
    };
    match run_calls_from(memory, &mut store, calls) {
        Ok(replies) => Ok((store, replies)),
        Err(OutOfMemory) => Err(NotRun::OutOfMemory(store)),
    }
}
