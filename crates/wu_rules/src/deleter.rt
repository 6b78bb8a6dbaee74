//! The file deleter.

ghost use Rattle.std.specs.Prelude.{◌≡◌, map};
ghost use Rattle.std.specs.List.{list_any};
ghost use Rattle.wu_rules.specs.Instances.{is_ready_file};
ghost use Rattle.wu_rules.specs.Assimilation.{without_output, emptied, is_to_delete};

use wu_core::{FileDelete, Instance, Instances, Workunit};

/// Empties an output that is READY for deletion.
fn delete_output(instance: &mut Instance)
    ensures { instance.new ≡ without_output instance.old }
{
    if instance.file_delete == FileDelete::Ready {
        instance.output.clear();
        instance.file_delete = FileDelete::Done;
    }
}

/// Empties each output that is READY for deletion.
fn delete_outputs(instances: &mut Instances)
    ensures { instances.new ≡ map without_output instances.old }
{
    'each: for instance in instances.as_mut_slice() {
        delete_output(instance);
    }
}

/// Empties the input and the outputs that are READY for deletion.
#[tactic(auto, unfolding(crate::specs::Assimilation::emptied))]
pub fn delete_files(workunit: &mut Workunit)
    // Each input or output that is READY for deletion is empty and DONE, and all else stays as it
    // was.
    ensures { workunit.new ≡ emptied workunit.old }
{
    if workunit.file_delete == FileDelete::Ready {
        workunit.input.clear();
        workunit.file_delete = FileDelete::Done;
    }
    delete_outputs(&mut workunit.instances);
}

/// Returns whether an output is READY for deletion.
fn has_output_to_delete(instances: &Instances) -> bool
    ensures { result ≡ list_any (λ i. is_ready_file i.file_delete) instances.now }
{
    instances
        .iter()
        .any(|instance| instance.file_delete == FileDelete::Ready)
}

/// Returns whether the input or an output is READY for deletion.
#[tactic(auto, unfolding(crate::specs::Assimilation::is_to_delete))]
pub fn wants_deletion(workunit: &Workunit) -> bool
    // The result is true exactly if the input or an output is READY for deletion.
    ensures { result ≡ is_to_delete workunit.now }
{
    workunit.file_delete == FileDelete::Ready || has_output_to_delete(&workunit.instances)
}
