//! The numbers of refusals, and which info block a call names.

ghost use Rattle.std.specs.Prelude.{◌≡◌, ◌≢◌};
ghost use Rattle.heap_model.specs.Numbers.{number_of};
ghost use Rattle.palmheap_c.specs.Calls as calls;

use heap_model::{Refusal, Which};

/// Returns the number of a refusal, 1 to 27.
pub(crate) fn refused(refusal: Refusal) -> u32
    ensures is { result ≡ number_of refusal }
    ensures some { result ≢ 0 }
{
    u32::from(refusal.number())
}

/// Returns the SortInfo block if `sort` is true, or else the AppInfo block.
pub(crate) fn which_of(sort: bool) -> Which
    ensures { result ≡ calls.which_of sort }
{
    if sort { Which::Sort } else { Which::App }
}
