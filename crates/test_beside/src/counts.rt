//! How often each call was accepted, and refused for which reason.

use heap_model::{
    Call, DatabaseCall, FileCall, MemoryCall, RecordCall, Refusal, Reply, ResourceCall,
};
use std::alloc::Global;
use std::test::Fail;

/// A call by its name, and why it was refused, if it was.
#[derive(Clone, Copy, Debug, PartialEq, Eq)]
pub struct Outcome {
    call: &'static str,
    refusal: Option<Refusal>,
}

/// Outcomes, and how often each came up.
#[derive(Drop)]
pub struct Counts {
    counted: Vec<(Outcome, u32)>,
}

impl Counts {
    pub fn new(alloc: Global) -> Counts {
        Counts {
            counted: Vec::new(alloc),
        }
    }

    pub fn add(&mut self, call: &Call, reply: &Reply) -> Result<(), Fail> {
        let refusal = match reply {
            Reply::Refused(refusal) => Some(*refusal),
            _ => None,
        };
        let outcome = Outcome {
            call: name_of(call),
            refusal,
        };
        for (known, times) in &mut self.counted {
            if *known == outcome {
                *times = times.saturating_add(1);
                return Ok(());
            }
        }
        self.counted.push((outcome, 1))?;
        Ok(())
    }

    /// How often an outcome came up.
    fn times(&self, outcome: Outcome) -> u32 {
        for (known, times) in &self.counted {
            if *known == outcome {
                return *times;
            }
        }
        0
    }

    /// The first refusal of a table that has not come up.
    pub fn not_refused(&self, table: &[(&'static str, &[Refusal])]) -> Option<Outcome> {
        for (call, refusals) in table {
            let missing = self.not_refused_of(call, refusals);
            if missing.is_some() {
                return missing;
            }
        }
        None
    }

    /// The first outcome of a table that has not come up: of each call that it was accepted, and
    /// each refusal.
    pub fn missing(&self, table: &[(&'static str, &[Refusal])]) -> Option<Outcome> {
        for (call, refusals) in table {
            let missing = self.missing_of(call, refusals);
            if missing.is_some() {
                return missing;
            }
        }
        None
    }

    /// The first of a call.
    fn missing_of(&self, call: &'static str, refusals: &[Refusal]) -> Option<Outcome> {
        let accepted = Outcome {
            call,
            refusal: None,
        };
        if self.times(accepted) == 0 {
            return Some(accepted);
        }
        self.not_refused_of(call, refusals)
    }

    /// The first refusal of a call.
    fn not_refused_of(&self, call: &'static str, refusals: &[Refusal]) -> Option<Outcome> {
        for refusal in refusals {
            let refused = Outcome {
                call,
                refusal: Some(*refusal),
            };
            if self.times(refused) == 0 {
                return Some(refused);
            }
        }
        None
    }
}

/// The name of a call.
fn name_of(call: &Call) -> &'static str {
    match call {
        Call::Memory(call) => memory_name(call),
        Call::Database(call) => database_name(call),
        Call::Record(call) => record_name(call),
        Call::Resource(call) => resource_name(call),
        Call::File(FileCall::Import(_)) => "import",
        Call::File(FileCall::Export(_)) => "export",
    }
}

fn database_name(call: &DatabaseCall) -> &'static str {
    match call {
        DatabaseCall::Create { .. } => "create",
        DatabaseCall::Delete(_) => "delete",
        DatabaseCall::Find(_) => "find",
        DatabaseCall::Nth(_) => "nth",
        DatabaseCall::Count => "count",
        DatabaseCall::Info(_) => "info",
        DatabaseCall::SetInfo(_, _) => "set_info",
        DatabaseCall::SetInfoBlock { .. } => "set_info_block",
        DatabaseCall::TakeInfoBlock { .. } => "take_info_block",
        DatabaseCall::InfoBlock(..) => "info_block",
    }
}

fn record_name(call: &RecordCall) -> &'static str {
    match call {
        RecordCall::New { .. } => "new_record",
        RecordCall::Delete(..) => "delete_record",
        RecordCall::Archive(..) => "archive",
        RecordCall::Remove(..) => "remove",
        RecordCall::Move { .. } => "move_record",
        RecordCall::Get(..) => "get",
        RecordCall::Query(..) => "query",
        RecordCall::Release { .. } => "release",
        RecordCall::Info(..) => "record_info",
        RecordCall::Resize { .. } => "resize_record",
        RecordCall::Count(_) => "num_records",
        RecordCall::Attach { .. } => "attach",
        RecordCall::AttachReplacing { .. } => "attach_replacing",
        RecordCall::Detach { .. } => "detach",
        RecordCall::SetInfo { .. } => "set_record_info",
        RecordCall::FindById(..) => "find_by_id",
        RecordCall::CountInCategory(..) => "num_in_category",
        RecordCall::NextInCategory { .. } => "next_in_category",
        RecordCall::PositionInCategory { .. } => "position_in_category",
        RecordCall::MoveCategory { .. } => "move_category",
        RecordCall::DeleteCategory(..) => "delete_category",
    }
}

fn resource_name(call: &ResourceCall) -> &'static str {
    match call {
        ResourceCall::New { .. } => "new_resource",
        ResourceCall::Attach { .. } => "attach_resource",
        ResourceCall::Detach { .. } => "detach_resource",
        ResourceCall::Remove(..) => "remove_resource",
        ResourceCall::Resize { .. } => "resize_resource",
        ResourceCall::Info(..) => "resource_info",
        ResourceCall::SetInfo { .. } => "set_resource_info",
        ResourceCall::Find { .. } => "find_resource",
        ResourceCall::FindType { .. } => "find_type",
        ResourceCall::Count(_) => "num_resources",
    }
}

fn memory_name(call: &MemoryCall) -> &'static str {
    match call {
        MemoryCall::HandleNew { .. } => "handle_new",
        MemoryCall::PtrNew { .. } => "ptr_new",
        MemoryCall::Free(_) => "free",
        MemoryCall::Lock(_) => "lock",
        MemoryCall::Unlock(_) => "unlock",
        MemoryCall::Size(_) => "size",
        MemoryCall::Owner(_) => "owner",
        MemoryCall::Locks(_) => "locks",
        MemoryCall::Read { .. } => "read",
        MemoryCall::Write { .. } => "write",
        MemoryCall::Set { .. } => "set",
        MemoryCall::StrCopy { .. } => "str_copy",
        MemoryCall::Resize { .. } => "resize",
        MemoryCall::SetOwner { .. } => "set_owner",
        MemoryCall::Recover(_) => "recover",
        MemoryCall::FreeByOwner(_) => "free_by_owner",
        MemoryCall::FreeBytes => "free_bytes",
        MemoryCall::LargestStretch => "largest_stretch",
        MemoryCall::Compact => "compact",
        MemoryCall::MoreSlots => "more_slots",
    }
}
