//! One try of a call of the Resource Manager.

ghost use Rattle.std.specs.Prelude.{◌≡◌, option_map, IfOk, OnOk, OnErr, IsOk};
ghost use Rattle.heap_calls.specs.Gone.{IsIdle, Hears};
ghost use Rattle.res_calls.specs.Asked as finds;
ghost use Rattle.res_calls.specs.Fetching.{fetches};
ghost use Rattle.res_calls.specs.Given.{managers};
ghost use Rattle.res_calls.specs.Gone.{gone_for};
ghost use Rattle.applications.specs.Application.{bytes_told};
ghost use Rattle.applications.specs.Trying.{resource_asked, resource_tried, storing, managers_of};
ghost use Rattle.applications.specs.Replies.{TellsServed, IsTried};

use crate::application::Application;
use crate::names::Names;
use crate::tried::{
    Tried, attributes, counted, done_on_resource, fetched, info, kind, read, sized,
};
use block_store::BlockStore;
use heap_calls::{Heap, PurgeSink};
use mac_words::{Attrs, Reply, ResourceCall};
use res_calls::{Purges, Resources};
use std::alloc::{AllocError, Global};

/// Returns the number of the resource's handle that a call names as an argument. A name that the
/// call binds is not an argument.
pub fn named_resource(call: &ResourceCall, names: &Names) -> Option<usize>
    ensures { result ≡ finds.named (resource_asked call.now names.now) }
{
    match call {
        ResourceCall::HomeResFile(name) => names.number(name),
        ResourceCall::LoadResource(name) => names.number(name),
        ResourceCall::ReleaseResource(name) => names.number(name),
        ResourceCall::DetachResource(name) => names.number(name),
        ResourceCall::AddResource(name, _, _, _) => names.number(name),
        ResourceCall::RemoveResource(name) => names.number(name),
        ResourceCall::ChangedResource(name) => names.number(name),
        ResourceCall::WriteResource(name) => names.number(name),
        ResourceCall::GetResInfo(name) => names.number(name),
        ResourceCall::SetResInfo(name, _, _) => names.number(name),
        ResourceCall::GetResAttrs(name) => names.number(name),
        ResourceCall::SetResAttrs(name, _) => names.number(name),
        ResourceCall::GetResourceSizeOnDisk(name) => names.number(name),
        ResourceCall::ReadPartialResource(name, _, _) => names.number(name),
        ResourceCall::WritePartialResource(name, _, _) => names.number(name),
        ResourceCall::SetResourceSize(name, _) => names.number(name),
        ResourceCall::OpenResFile(_)
        | ResourceCall::CreateResFile(_)
        | ResourceCall::CloseResFile(_)
        | ResourceCall::UpdateResFile(_)
        | ResourceCall::UseResFile(_)
        | ResourceCall::CurResFile
        | ResourceCall::GetResource(..)
        | ResourceCall::Get1Resource(..)
        | ResourceCall::GetNamedResource(..)
        | ResourceCall::Get1NamedResource(..)
        | ResourceCall::GetResFileAttrs(_)
        | ResourceCall::SetResFileAttrs(..)
        | ResourceCall::CountTypes
        | ResourceCall::Count1Types
        | ResourceCall::GetIndType(_)
        | ResourceCall::Get1IndType(_)
        | ResourceCall::CountResources(_)
        | ResourceCall::Count1Resources(_)
        | ResourceCall::GetIndResource(..)
        | ResourceCall::Get1IndResource(..)
        | ResourceCall::UniqueID(_)
        | ResourceCall::Unique1ID(_)
        | ResourceCall::SetResPurge(_)
        | ResourceCall::SetResLoad(_)
        | ResourceCall::ResError => None,
    }
}

impl<'s, S: BlockStore> Application<'s, S> {
    /// Tries a call of the Resource Manager.
    pub(crate) fn find(&mut self, call: &ResourceCall) -> Result<Tried, AllocError>
        ensures tried { IfOk result (λ tried. IsTried tried (resource_tried (finds.served
            (resource_asked call.now self.old.names) (managers_of self.old)) self.old)) }
        ensures after { OnOk result (self.new ≡ storing self.old.resources.purging
            (gone_for (resource_asked call.now self.old.names) (managers_of self.old))
            (resource_tried (finds.served (resource_asked call.now self.old.names)
            (managers_of self.old)) self.old).after) }
        ensures files { OnErr result (self.new.resources.files ≡ self.old.resources.files) }
        ensures lies { self.new.memory.window ≡ self.old.memory.window }
    {
        let mut purges = Purges::new(self.alloc, self.resources.purging());
        let tried = self.answer_resource(call, &mut purges);
        self.resources.store_purged(purges.into_told());
        tried
    }

    /// Tries a call of the Resource Manager over the heap and the resources of the application. The
    /// blocks that the call purges are offered to the sink, if it listens.
    fn answer_resource<K: PurgeSink>(
        &mut self,
        call: &ResourceCall,
        sink: &mut K,
    ) -> Result<Tried, AllocError>
        requires idle { IsIdle K.told K.waits sink.old }
        ensures told { IfOk result (λ tried. TellsServed tried
            (finds.served (resource_asked call.now self.old.names) (managers_of self.old))
            (fetches (resource_asked call.now self.old.names))) }
        ensures after { OnOk result (self.new ≡ (resource_tried (finds.served
            (resource_asked call.now self.old.names) (managers_of self.old)) self.old).after) }
        ensures hears { Hears K.told K.waits K.listens (IsOk result) (gone_for
            (resource_asked call.now self.old.names) (managers_of self.old)) sink.old sink.new }
        ensures files { OnErr result (self.new.resources.files ≡ self.old.resources.files) }
        ensures lies { self.new.memory.window ≡ self.old.memory.window }
    {
        answered(
            self.alloc,
            &mut self.resources,
            &mut self.heap,
            &self.names,
            call,
            sink,
        )
    }
}

/// Returns the bytes that a call of the Resource Manager shows of `resources`.
#[tactic(auto, using(crate::proofs::FoundCalls::shows_nothing))]
pub(crate) fn shown_in<'a, S: BlockStore>(
    resources: &'a Resources,
    heap: &Heap<S>,
    names: &Names,
    call: &ResourceCall,
) -> Option<&'a [u8]>
    ensures { option_map (λ bytes. bytes.now) result ≡ bytes_told (finds.served
        (resource_asked call.now names.now) (managers resources.now heap.now.memory)).told }
{
    match call {
        ResourceCall::ReadPartialResource(name, offset, count) => {
            resources
                .partial(heap, names.number(name), *offset, *count)
                .ok()
        }
        _ => None,
    }
}

/// Answers a call of the Resource Manager in `resources` and `heap`; the names of the call are
/// bound as `names` says. The blocks that the call purges are offered to the sink, if it listens.
#[tactic(auto, using(crate::proofs::Hearing::hears_nothing, crate::proofs::Hearing::hears_tried))]
fn answered<S: BlockStore, K: PurgeSink>(
    alloc: Global,
    resources: &mut Resources,
    heap: &mut Heap<S>,
    names: &Names,
    call: &ResourceCall,
    sink: &mut K,
) -> Result<Tried, AllocError>
    requires idle { IsIdle K.told K.waits sink.old }
    ensures told { IfOk result (λ tried. TellsServed tried
        (finds.served (resource_asked call.now names.now) (managers resources.old heap.old.memory))
        (fetches (resource_asked call.now names.now))) }
    ensures after { OnOk result (managers resources.new heap.new.memory
        ≡ (finds.served (resource_asked call.now names.now)
        (managers resources.old heap.old.memory)).after) }
    ensures hears { Hears K.told K.waits K.listens (IsOk result)
        (gone_for (resource_asked call.now names.now) (managers resources.old heap.old.memory))
        sink.old sink.new }
    ensures files { OnErr result (resources.new.files ≡ resources.old.files) }
    ensures lies { heap.new.memory.window ≡ heap.old.memory.window }
{
    match call {
        ResourceCall::OpenResFile(name) => counted(resources.open_res_file(
            alloc, heap, name, sink,
        )),
        ResourceCall::CreateResFile(name) => done_on_resource(resources.create_res_file(
            alloc, name,
        )),
        ResourceCall::CloseResFile(number) => done_on_resource(resources.close_res_file(
            alloc, heap, *number,
        )),
        ResourceCall::UpdateResFile(number) => done_on_resource(resources.update_res_file(
            alloc, heap, *number,
        )),
        ResourceCall::UseResFile(number) => done_on_resource(resources.use_res_file(*number)),
        ResourceCall::CurResFile => counted(Ok(resources.cur_res_file())),
        ResourceCall::HomeResFile(name) => counted(resources.home_res_file(names.number(name))),
        ResourceCall::GetResource(_, ty, id) => fetched(resources.get_resource(
            heap, *ty, *id, sink,
        )),
        ResourceCall::Get1Resource(_, ty, id) => fetched(resources.get1_resource(
            heap, *ty, *id, sink,
        )),
        ResourceCall::GetNamedResource(_, ty, text) => fetched(resources.get_named_resource(
            heap,
            *ty,
            text.0.as_slice(),
            sink,
        )),
        ResourceCall::Get1NamedResource(_, ty, text) => fetched(resources.get1_named_resource(
            heap,
            *ty,
            text.0.as_slice(),
            sink,
        )),
        ResourceCall::GetResFileAttrs(number) => counted(resources.get_res_file_attrs(*number)),
        ResourceCall::SetResFileAttrs(number, attrs) => done_on_resource(
            resources.set_res_file_attrs(*number, *attrs),
        ),
        ResourceCall::CountTypes => sized(Ok(resources.count_types())),
        ResourceCall::Count1Types => sized(Ok(resources.count1_types())),
        ResourceCall::GetIndType(index) => kind(resources.get_ind_type(*index)),
        ResourceCall::Get1IndType(index) => kind(resources.get1_ind_type(*index)),
        ResourceCall::CountResources(ty) => sized(Ok(resources.count_resources(*ty))),
        ResourceCall::Count1Resources(ty) => sized(Ok(resources.count1_resources(*ty))),
        ResourceCall::Get1IndResource(_, ty, index) => fetched(resources.get1_ind_resource(
            heap, *ty, *index, sink,
        )),
        ResourceCall::GetIndResource(_, ty, index) => fetched(resources.get_ind_resource(
            heap, *ty, *index, sink,
        )),
        ResourceCall::UniqueID(ty) => counted(resources.unique_id(*ty)),
        ResourceCall::Unique1ID(ty) => counted(resources.unique1_id(*ty)),
        ResourceCall::LoadResource(name) => fetched(resources.load_resource(
            heap,
            names.number(name),
            sink,
        )),
        ResourceCall::ReleaseResource(name) => done_on_resource(resources.release_resource(
            heap,
            names.number(name),
        )),
        ResourceCall::DetachResource(name) => done_on_resource(resources.detach_resource(
            heap,
            names.number(name),
        )),
        ResourceCall::AddResource(name, ty, id, text) => done_on_resource(resources.add_resource(
            alloc,
            heap,
            names.number(name),
            *ty,
            *id,
            text,
        )),
        ResourceCall::RemoveResource(name) => done_on_resource(resources.remove_resource(
            heap,
            names.number(name),
        )),
        ResourceCall::ChangedResource(name) => done_on_resource(resources.changed_resource(
            names.number(name),
        )),
        ResourceCall::WriteResource(name) => done_on_resource(resources.write_resource(
            alloc,
            heap,
            names.number(name),
        )),
        ResourceCall::GetResInfo(name) => info(alloc, resources.get_res_info(names.number(name))),
        ResourceCall::SetResInfo(name, id, text) => done_on_resource(resources.set_res_info(
            alloc,
            names.number(name),
            *id,
            text,
        )),
        ResourceCall::GetResAttrs(name) => attributes(resources.get_res_attrs(names.number(name))),
        ResourceCall::SetResAttrs(name, attrs) => done_on_resource(resources.set_res_attrs(
            names.number(name),
            Attrs(*attrs),
        )),
        ResourceCall::GetResourceSizeOnDisk(name) => sized(resources.get_resource_size_on_disk(
            names.number(name),
        )),
        ResourceCall::ReadPartialResource(name, offset, count) => read(
            resources.read_partial_resource(heap, names.number(name), *offset, *count),
        ),
        ResourceCall::WritePartialResource(name, offset, bytes) => done_on_resource(
            resources.write_partial_resource(heap, names.number(name), *offset, bytes),
        ),
        ResourceCall::SetResourceSize(name, size) => done_on_resource(resources.set_resource_size(
            heap,
            names.number(name),
            *size,
        )),
        ResourceCall::SetResPurge(on) => {
            resources.set_res_purge(*on);
            done_on_resource(Ok(()))
        }
        ResourceCall::SetResLoad(on) => {
            resources.set_res_load(*on);
            done_on_resource(Ok(()))
        },
        ResourceCall::ResError => Ok(Tried::told(Reply::telling(resources.res_error()))),
    }
}
