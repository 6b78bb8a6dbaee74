//! Copies of workunits; out of memory is an error.

ghost use Rattle.std.specs.Prelude.{◌≡◌};
ghost use Rattle.wu_core.specs.Reads.{OkOrWantsMemory};

use std::alloc::Global;
use wu_core::{Bytes, Fault, Instance, Instances, Name, Workunit};

/// Copies the bytes. The only fault is `Memory`.
fn copy_of_bytes(alloc: Global, bytes: &Bytes) -> Result<Bytes, Fault>
    ensures { OkOrWantsMemory result (λ copy. copy ≡ bytes.now) }
{
    Ok(Bytes::from_vec(Vec::from_slice(alloc, bytes.as_slice())?))
}

/// Copies the host's name, if there is one. The only fault is `Memory`.
fn copy_of_host(host: &Option<Name>) -> Result<Option<Name>, Fault>
    ensures { OkOrWantsMemory result (λ copy. copy ≡ host.now) }
{
    match host {
        Some(name) => Ok(Some(name.copy()?)),
        None => Ok(None),
    }
}

/// Copies the instance. The only fault is `Memory`.
fn copy_of_instance(alloc: Global, instance: &Instance) -> Result<Instance, Fault>
    ensures { OkOrWantsMemory result (λ copy. copy ≡ instance.now) }
{
    let host = copy_of_host(&instance.host)?;
    let output = copy_of_bytes(alloc, &instance.output)?;
    Ok(Instance {
        server_state: instance.server_state,
        outcome: instance.outcome,
        validate_state: instance.validate_state,
        file_delete: instance.file_delete,
        host,
        sent_at: instance.sent_at,
        deadline: instance.deadline,
        received_at: instance.received_at,
        output,
    })
}

/// Copies the instances, in their order.
fn copies_of(alloc: Global, instances: &[Instance]) -> Result<Vec<Instance>, Fault>
    ensures { OkOrWantsMemory result (λ copies. copies.items ≡ instances.now) }
{
    let mut copies = Vec::new(alloc);
    for instance in instances {
        copies.push(copy_of_instance(alloc, instance)?)?;
    }
    Ok(copies)
}

/// Copies the workunit, with its instances.
pub fn copy_of(alloc: Global, workunit: &Workunit) -> Result<Workunit, Fault>
    // The copy is the same workunit. The only fault is `Memory`.
    ensures { OkOrWantsMemory result (λ copy. copy ≡ workunit.now) }
{
    let name = workunit.name.copy()?;
    let input = copy_of_bytes(alloc, &workunit.input)?;
    let instances = copies_of(alloc, workunit.instances.as_slice())?;
    Ok(Workunit {
        number: workunit.number,
        name,
        params: workunit.params,
        input,
        error_mask: workunit.error_mask,
        canonical: workunit.canonical,
        assimilate: workunit.assimilate,
        file_delete: workunit.file_delete,
        done_at: workunit.done_at,
        class: workunit.class,
        instances: Instances::from_vec(instances),
    })
}
