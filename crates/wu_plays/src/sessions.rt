//! What a scenario asks of a project, over any store.

use anyhow::{Result, bail};
use sqlite::{Alter, Connection};
use std::alloc::Global;
use std::io::Write;
use wu_arguments::Action;
use wu_cli::perform;
use wu_core::Fault;
use wu_drive::{Project, View, show};

/// Begins a session over the project in a database. Fails if the adoption fails.
pub fn adopt<S: Alter + Drop>(conn: Connection<S>) -> Result<Project<S>> {
    match Project::adopt(conn) {
        Ok(project) => Ok(project),
        Err((_, fault)) => bail!("the adoption: {fault}"),
    }
}

/// Writes a view, or the fault `OldSchema` of a project of an older version. Fails for any other fault.
fn write_view<S: Alter>(
    alloc: Global,
    project: &mut Project<S>,
    view: &View,
    out: &mut Vec<u8>,
) -> Result<()> {
    match show(alloc, project, view, out) {
        Ok(()) => Ok(()),
        Err(fault @ Fault::OldSchema(_)) => {
            writeln!(out, "{fault}")?;
            Ok(())
        }
        Err(fault) => bail!("a view: {fault}"),
    }
}

/// Returns the six views that `show` prints, one after another.
pub fn views<S: Alter>(alloc: Global, project: &mut Project<S>) -> Result<Vec<u8>> {
    let mut out = Vec::new(alloc);
    for view in [
        View::Workunits,
        View::Results,
        View::Hosts,
        View::Archive,
        View::Summary,
        View::Classes,
    ] {
        write_view(alloc, project, &view, &mut out)?;
    }
    Ok(out)
}

/// Runs an action, if there is one, and returns the fault that ended it. Drops what it prints.
pub fn do_action<S: Alter>(
    alloc: Global,
    project: &mut Project<S>,
    action: Option<&Action>,
) -> Option<Fault> {
    match action {
        Some(action) => perform(alloc, project, action, &mut Vec::new(alloc)).1,
        None => None,
    }
}
